//! How the bodies are stored. A function may not make a body and hand it out, since a body has a boxed function: so a
//! macro stores them where they run.

/// A `Vec` of the program's bodies, in the order of their table, made where the macro is called. The function around it
/// answers out of memory by `?`.
#[macro_export]
macro_rules! stock_bodies {
    ($alloc:expr) => {{
        let alloc = $alloc;
        let mut bodies = Vec::new(alloc);
        for stock in $crate::Stock::all() {
            let stock = *stock;
            let asks = Box::new(alloc, move |frame: &$crate::Frame| stock.ask(frame))?;
            bodies.push($crate::Body::new(stock.name(), stock.promise(), asks))?;
        }
        bodies
    }};
}
