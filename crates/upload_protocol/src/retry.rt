/// Under which number the thermostat sends a message again that was lost.
#[derive(Clone, Copy, PartialEq, Eq, Debug)]
pub enum Retry {
    /// A fresh one, as a new message gets.
    Fresh,
    /// The same again.
    Same,
}
