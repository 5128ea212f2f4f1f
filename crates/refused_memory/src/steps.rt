//! What is declared, the steps that are taken then, what each answers, and the trace that it shows.
use crate::runs::{Asked, Reply, Step};
use Asked::{Batch, Begin, Call, End, Fire, LookUp, Put, PutDecl, Remove, Stop};
use Error::Refused;
use Outcome::{Failed, Value};
use Val::{Int, Null};
use cdi_model::{Error, Failure, Outcome, Refusal, Val};

const DONE: Reply = Ok(None);

const NULL: Reply = Ok(Some(Value(Null)));

const NOT_ACTIVE: Reply = Ok(Some(Failed(Failure::NotActive)));

/// What a batch puts.
const PUTS: &[&[u8]] = &[
    b"kind=\"type\"\nname=\"E\"\n",
    b"kind=\"type\"\nname=\"F\"\n",
];

/// A dependent bean with a point and an observer method, the bean that its point holds, a bean of the request, and one of the
/// application, which may fire an event and around which is an interceptor that has a point too.
pub static DECLARED: [&[u8]; 10] = [
    b"kind=\"binding\"\nname=\"Log\"\n",
    b"kind=\"type\"\nname=\"A\"\n",
    b"kind=\"type\"\nname=\"D\"\n",
    b"kind=\"type\"\nname=\"R\"\n",
    b"kind=\"type\"\nname=\"S\"\n",
    br#"kind="bean"
name="A"
points=[{name="d",type="D"}]
observers=[{name="see",type="R",qualifiers=["Any"],body="echo",params=[{name="e",type="D"}]}]
"#,
    b"kind=\"bean\"\nname=\"D\"\npost={body=\"echo\"}\n",
    b"kind=\"bean\"\nname=\"R\"\nscope=\"request\"\nmethods=[{name=\"run\",body=\"echo\"}]\n",
    br#"kind="bean"
name="S"
scope="application"
bindings=["Log"]
points=[{name="d",type="D"}]
methods=[{name="run",body="echo",fires=["R"]}]
"#,
    br#"kind="interceptor"
name="I"
priority=1
bindings=["Log"]
points=[{name="d",type="D"}]
around_invoke={body="pass"}
around_construct={body="pass"}
post={body="count"}
pre={body="count"}
"#,
];

/// Steps in which edits, the ends of contexts and interceptors with state and points make and destroy instances.
pub static STEPS: [Step; 21] = [
    Step(
        LookUp(b"A"),
        NULL,
        b"  create A#1
  create D#2
  enter D#2 post arg null
  leave null
  ready D#2
  ready A#1
  destroy A#1
  destroy D#2
  gone D#2
  gone A#1
",
    ),
    Step(
        Call(b"run", Int(7), b"S"),
        Ok(Some(Value(Int(7)))),
        b"  create S#3
  create D#4
  enter D#4 post arg null
  leave null
  ready D#4
  create D#5
  enter D#5 post arg null
  leave null
  ready D#5
  enter S#3 construct by I arg null
  proceed null
  got null
  leave null
  enter S#3 post by I arg null
  load null
  store 1
  leave 1
  ready S#3
  enter S#3 method run by I arg 7
  proceed 7
  enter S#3 method run arg 7
  leave 7
  got 7
  leave 7
",
    ),
    Step(Begin, DONE, b""),
    Step(
        Call(b"run", Int(8), b"R"),
        Ok(Some(Value(Int(8)))),
        b"  create R#6
  ready R#6
  enter R#6 method run arg 8
  leave 8
",
    ),
    Step(End, DONE, b"  destroy R#6\n  gone R#6\n"),
    Step(Begin, DONE, b""),
    Step(LookUp(b"R"), NULL, b"  create R#7\n  ready R#7\n"),
    Step(
        Batch(PUTS),
        DONE,
        b"  destroy R#7
  gone R#7
  destroy S#3
  enter S#3 pre by I arg null
  load 1
  store 2
  leave 2
  destroy D#5
  gone D#5
  destroy D#4
  gone D#4
  gone S#3
",
    ),
    Step(LookUp(b"R"), NOT_ACTIVE, b""),
    Step(
        Fire(Int(5), b"R"),
        NULL,
        b"  create A#8
  create D#9
  enter D#9 post arg null
  leave null
  ready D#9
  ready A#8
  create D#10
  enter D#10 post arg null
  leave null
  ready D#10
  enter A#8 observer see arg 5
  leave 5
  destroy D#10
  gone D#10
  destroy A#8
  destroy D#9
  gone D#9
  gone A#8
",
    ),
    Step(
        Call(b"run", Int(9), b"S"),
        Ok(Some(Value(Int(9)))),
        b"  create S#11
  create D#12
  enter D#12 post arg null
  leave null
  ready D#12
  create D#13
  enter D#13 post arg null
  leave null
  ready D#13
  enter S#11 construct by I arg null
  proceed null
  got null
  leave null
  enter S#11 post by I arg null
  load null
  store 1
  leave 1
  ready S#11
  enter S#11 method run by I arg 9
  proceed 9
  enter S#11 method run arg 9
  leave 9
  got 9
  leave 9
",
    ),
    Step(
        Stop,
        DONE,
        b"  destroy S#11
  enter S#11 pre by I arg null
  load 1
  store 2
  leave 2
  destroy D#13
  gone D#13
  destroy D#12
  gone D#12
  gone S#11
",
    ),
    Step(Begin, DONE, b""),
    Step(
        Call(b"run", Int(4), b"S"),
        Ok(Some(Value(Int(4)))),
        b"  create S#14
  create D#15
  enter D#15 post arg null
  leave null
  ready D#15
  create D#16
  enter D#16 post arg null
  leave null
  ready D#16
  enter S#14 construct by I arg null
  proceed null
  got null
  leave null
  enter S#14 post by I arg null
  load null
  store 1
  leave 1
  ready S#14
  enter S#14 method run by I arg 4
  proceed 4
  enter S#14 method run arg 4
  leave 4
  got 4
  leave 4
",
    ),
    Step(LookUp(b"R"), NULL, b"  create R#17\n  ready R#17\n"),
    Step(
        Remove(b"E"),
        DONE,
        b"  destroy R#17
  gone R#17
  destroy S#14
  enter S#14 pre by I arg null
  load 1
  store 2
  leave 2
  destroy D#16
  gone D#16
  destroy D#15
  gone D#15
  gone S#14
",
    ),
    // Where nothing was asked since the last edit, nothing ends.
    Step(Put(b"kind=\"type\"\nname=\"E\"\n"), DONE, b""),
    Step(PutDecl(b"kind=\"type\"\nname=\"E\"\n"), DONE, b""),
    Step(Remove(b"E"), DONE, b""),
    Step(
        Fire(Int(5), b"R"),
        NULL,
        b"  create A#18
  create D#19
  enter D#19 post arg null
  leave null
  ready D#19
  ready A#18
  create D#20
  enter D#20 post arg null
  leave null
  ready D#20
  enter A#18 observer see arg 5
  leave 5
  destroy D#20
  gone D#20
  destroy A#18
  destroy D#19
  gone D#19
  gone A#18
",
    ),
    // Whom the same event notifies is known by now.
    Step(
        Fire(Int(6), b"R"),
        NULL,
        b"  create A#21
  create D#22
  enter D#22 post arg null
  leave null
  ready D#22
  ready A#21
  create D#23
  enter D#23 post arg null
  leave null
  ready D#23
  enter A#21 observer see arg 6
  leave 6
  destroy D#23
  gone D#23
  destroy A#21
  destroy D#22
  gone D#22
  gone A#21
",
    ),
];

/// A dependent bean, whose point holds another one that has a callback, a bean of the request, and one of the application with
/// an observer method.
pub static FURTHER_DECLARED: [&[u8]; 8] = [
    b"kind=\"type\"\nname=\"A\"\n",
    b"kind=\"type\"\nname=\"D\"\n",
    b"kind=\"type\"\nname=\"R\"\n",
    b"kind=\"type\"\nname=\"S\"\n",
    b"kind=\"bean\"\nname=\"A\"\npoints=[{name=\"d\",type=\"D\"}]\nmethods=[{name=\"run\",body=\"echo\"}]\n",
    b"kind=\"bean\"\nname=\"D\"\npost={body=\"echo\"}\n",
    b"kind=\"bean\"\nname=\"R\"\nscope=\"request\"\nmethods=[{name=\"run\",body=\"echo\"}]\n",
    br#"kind="bean"
name="S"
scope="application"
methods=[{name="run",body="echo"}]
observers=[{name="see",type="D",body="echo"}]
"#,
];

/// Steps of which some are refused or fail: for want of a request, for a second one, and for what they name.
pub static FURTHER_STEPS: [Step; 19] = [
    Step(
        LookUp(b"A"),
        NULL,
        b"  create A#1
  create D#2
  enter D#2 post arg null
  leave null
  ready D#2
  ready A#1
  destroy A#1
  destroy D#2
  gone D#2
  gone A#1
",
    ),
    Step(
        Call(b"run", Int(1), b"A"),
        Ok(Some(Value(Int(1)))),
        b"  create A#3
  create D#4
  enter D#4 post arg null
  leave null
  ready D#4
  ready A#3
  enter A#3 method run arg 1
  leave 1
  destroy A#3
  destroy D#4
  gone D#4
  gone A#3
",
    ),
    Step(Call(b"run", Int(1), b"R"), NOT_ACTIVE, b""),
    Step(End, Err(Refused(Refusal::NoRequest)), b""),
    Step(Begin, DONE, b""),
    Step(
        Call(b"run", Int(-5), b"R"),
        Ok(Some(Value(Int(-5)))),
        b"  create R#5
  ready R#5
  enter R#5 method run arg -5
  leave -5
",
    ),
    Step(Begin, Err(Refused(Refusal::RequestActive)), b""),
    Step(
        Call(b"run", Null, b"S"),
        NULL,
        b"  create S#6
  ready S#6
  enter S#6 method run arg null
  leave null
",
    ),
    Step(LookUp(b"S"), NULL, b""),
    Step(
        Fire(Int(3), b"D"),
        NULL,
        b"  enter S#6 observer see arg 3\n  leave 3\n",
    ),
    Step(Fire(Int(3), b"A"), NULL, b""),
    Step(Fire(Int(3), b"Z"), Err(Refused(Refusal::UnknownName)), b""),
    Step(
        Call(b"go", Null, b"S"),
        Err(Refused(Refusal::NoMethod)),
        b"",
    ),
    Step(LookUp(b"Z"), Err(Refused(Refusal::UnknownName)), b""),
    Step(LookUp(b"Object"), Err(Refused(Refusal::Ambiguous)), b""),
    Step(End, DONE, b"  destroy R#5\n  gone R#5\n"),
    Step(LookUp(b"R"), NOT_ACTIVE, b""),
    Step(Stop, DONE, b"  destroy S#6\n  gone S#6\n"),
    Step(Stop, DONE, b""),
];
