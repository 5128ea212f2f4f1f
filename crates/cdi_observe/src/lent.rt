//! Answers that are lent, or made for whoever asks.
ghost use Rattle.std.specs.Prelude.{◌≡◌};
ghost use Rattle.cdi_observe.specs.Lending.{lent_value};

/// An answer of a view.
#[derive(Drop)]
pub enum Lent<'a, T> {
    /// One that the view keeps.
    Kept(&'a T),
    /// One that was made for whoever asked.
    Made(T),
}

impl<'a, T: Drop> Lent<'a, T> {
    /// The answer itself.
    pub fn get(&self) -> &T
        ensures { result.now ≡ lent_value self.now }
    {
        match self {
            Lent::Kept(answer) => answer,
            Lent::Made(answer) => answer,
        }
    }
}
