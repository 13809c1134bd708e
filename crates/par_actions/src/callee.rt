use crate::fit::Fit;

/// What a method does when it is called, by numbers.
#[derive(Clone, Copy, PartialEq, Eq)]
pub enum Target {
    /// It takes the next number of the line at this place, where its channel has a line.
    Input(Option<usize>),
    /// It puts its argument out.
    Output,
    /// It runs its code.
    Code {
        /// The number of its class, and of the method in that class.
        class: u16,
        method: u16,
        locals: u16,
        /// The most operands.
        room: u16,
    },
    /// It does nothing.
    Nothing,
}

/// A method, by numbers.
#[derive(Clone, Copy)]
pub struct Callee<'f> {
    pub is_static: bool,
    /// Its name is `<init>` and its descriptor `()V`.
    pub is_initializer: bool,
    /// What an object has to be to be given to it.
    pub receiver: Fit,
    /// It takes no object but one of an exception.
    pub only_exceptions: bool,
    /// What its arguments have to be, in their order.
    pub takes: &'f [Fit],
    /// It gives a result.
    pub gives: bool,
    pub target: Target,
}
