//! Options and arguments, as the parser is given them.
ghost use Rattle.std.specs.Prelude.{◌≡◌, false};
ghost use Rattle.clap.specs.Words.{rule_of};
ghost use Rattle.trace_forms.specs.Parser.{argument_form, argument_rule, flag_rule, number_form, number_rule};
ghost use Rattle.trace_forms.specs.Parser.{option_form, option_rule, text_rule, texts_rule};

use crate::forms::{ArgumentForm, NumberOption, OptionForm, Wants};
use clap::builder::ValueParser;
use clap::{Arg, ArgAction};
use std::alloc::Global;

/// An option as the parser knows it.
pub(crate) fn option_argument<'a>(alloc: Global, option: OptionForm) -> Arg<'a>
    ensures rule { rule_of result ≡ option_rule (option_form option) }
    ensures global { result.global ≡ false }
{
    let argument = match option.wants {
        Wants::OneNumber(number) => number_argument(alloc, option.name, number),
        Wants::OneText(value) => text_argument(alloc, option.name, value),
        Wants::ManyTexts(value) => texts_argument(alloc, option.name, value),
        Wants::NoText => flag_argument(alloc, option.name),
    };
    argument.help(option.help)
}

/// An option with a number.
fn number_argument<'a>(alloc: Global, name: &'a str, number: NumberOption) -> Arg<'a>
    ensures rule { rule_of result ≡ number_rule name.now (number_form number) }
    ensures global { result.global ≡ false }
{
    let bounds = ValueParser::signed(i64::from(number.least), i64::from(number.most));
    Arg::new(alloc, name)
        .long(name)
        .value_name("N")
        .value_parser(bounds)
        .default_value(number.default)
}

/// An option with a text.
fn text_argument<'a>(alloc: Global, name: &'a str, value: &'a str) -> Arg<'a>
    ensures rule { rule_of result ≡ text_rule name.now }
    ensures global { result.global ≡ false }
{
    Arg::new(alloc, name).long(name).value_name(value)
}

/// An option with a text each time that it is given.
fn texts_argument<'a>(alloc: Global, name: &'a str, value: &'a str) -> Arg<'a>
    ensures rule { rule_of result ≡ texts_rule name.now }
    ensures global { result.global ≡ false }
{
    text_argument(alloc, name, value).action(ArgAction::Append)
}

/// An option that is given or not.
fn flag_argument<'a>(alloc: Global, name: &'a str) -> Arg<'a>
    ensures rule { rule_of result ≡ flag_rule name.now }
    ensures global { result.global ≡ false }
{
    Arg::new(alloc, name).long(name).action(ArgAction::SetTrue)
}

/// An argument as the parser knows it.
pub(crate) fn place_argument<'a>(alloc: Global, argument: ArgumentForm) -> Arg<'a>
    ensures rule { rule_of result ≡ argument_rule (argument_form argument) }
    ensures global { result.global ≡ false }
{
    let place = Arg::new(alloc, argument.name)
        .required(argument.is_required)
        .help(argument.help);
    if argument.is_repeated {
        place.action(ArgAction::Append)
    } else {
        place
    }
}
