//! Options, arguments and commands by their forms.

/// The numbers that an option takes.
#[derive(Clone, Copy)]
pub struct NumberOption {
    /// The name of the option, which follows two hyphens.
    pub name: &'static str,
    /// Its number if it isn't given, in decimal digits.
    pub default: &'static str,
    pub least: u32,
    pub most: u32,
}

/// What an option takes after its name, and how often it may be given.
#[derive(Clone, Copy)]
pub enum Wants {
    /// A number, once.
    OneNumber(NumberOption),
    /// A text, once. Help calls it by this name.
    OneText(&'static str),
    /// A text, any number of times.
    ManyTexts(&'static str),
    /// Nothing, once.
    NoText,
}

/// An option of a command.
#[derive(Clone, Copy)]
pub struct OptionForm {
    /// What follows the two hyphens.
    pub name: &'static str,
    pub wants: Wants,
    pub help: &'static str,
}

/// An argument of a command.
#[derive(Clone, Copy)]
pub struct ArgumentForm {
    pub name: &'static str,
    pub is_required: bool,
    /// Whether it may be given any number of times.
    pub is_repeated: bool,
    pub help: &'static str,
}

/// A command, as the parser of words is given it.
#[derive(Clone, Copy)]
pub struct CommandForm {
    pub name: &'static str,
    /// What it does, at the top of its help.
    pub about: &'static str,
    /// One call or two, at the end of its help.
    pub examples: &'static str,
    pub options: &'static [OptionForm],
    /// In their order.
    pub arguments: &'static [ArgumentForm],
}
