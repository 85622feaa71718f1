//! The names in a form.

/// The name of an expression.
#[derive(Clone, Copy, PartialEq, Eq, Debug)]
pub(crate) enum Name {
    Mark,
    Nothing,
    Pair,
    Or,
    Star,
}

/// The name of a form.
#[derive(Clone, Copy, PartialEq, Eq, Debug)]
pub(crate) enum FormName {
    Lodge,
}
