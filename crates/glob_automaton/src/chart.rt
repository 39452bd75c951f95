//! The places of a rule, and how a match goes from one to the next: a nondeterministic automaton whose empty moves are
//! entries.
ghost use Rattle.std.specs.Prelude.{◌≡◌, ◌≤◌, ◌++◌, ◌∷◌, [], IfOk, IsTrue, OnOk, length};
ghost use Rattle.rule_globs.specs.Glob.{ByteSet, one, run};
ghost use Rattle.rule_globs.specs.Meaning.{meaning, meaning_of, stars_glob, alternatives_meaning};
ghost use Rattle.rule_profile.specs.Profile.{profile_value, rule_value};
ghost use Rattle.glob_automaton.specs.inner.Chart.{takes_byte};
ghost use Rattle.glob_automaton.specs.inner.Leaves.{reading};
ghost use Rattle.glob_automaton.specs.inner.Drawings.{IsReady, IsDrawn, IsPartOfChart, HasOneMore, IsChartOf, IsKnown, TakesSet, AreSame};

use names::{Permission, Perms, RuleKind};
use rule_globs::{Class, Item, Stars};
use rule_profile::Rule;
use std::alloc::{AllocError, Global};

/// Which bytes a place takes. No place takes byte 0.
#[derive(Clone, Copy, PartialEq, Eq)]
pub(crate) enum Label {
    /// That byte.
    Byte(u8),
    /// Any byte but a slash.
    InComponent,
    /// Any byte.
    Any,
    /// The bytes of the class of this number.
    Class(usize),
    /// None: the end of a rule.
    Nothing,
}

/// A point that a match can reach, given by what is live there. An entry refers only to entries before it.
#[derive(Clone, Copy, PartialEq, Eq)]
pub(crate) enum Entry {
    /// Nothing.
    Nothing,
    /// This place.
    Place(usize),
    /// This place, that of a run, and what is live after it.
    Run { place: usize, behind: usize },
    /// What is live at one point or at the other.
    Either(usize, usize),
}

/// A place: the bytes that it takes, and the entry after it.
#[derive(Clone, Copy, PartialEq, Eq)]
pub(crate) struct ChartPlace {
    pub takes: Label,
    pub behind: usize,
}

/// A rule: the place of its end, the entry at its beginning, and what it says.
#[derive(Clone, Copy, PartialEq, Eq)]
pub(crate) struct ChartRule {
    pub end: usize,
    pub start: usize,
    pub kind: RuleKind,
    pub perms: Perms,
}

/// The places of some rules, rule after rule: each rule's end, and then its places from the last to the first. Here it is one rule.
#[derive(Drop)]
pub(crate) struct Chart {
    pub places: Vec<ChartPlace>,
    pub entries: Vec<Entry>,
    /// Which bytes each class takes.
    pub classes: Vec<[bool; 256]>,
    pub rules: Vec<ChartRule>,
}

impl Chart {
    // The chart of no rules.
    fn blank(alloc: Global) -> Chart
        ensures { IsChartOf [] result }
    {
        Chart {
            places: Vec::new(alloc),
            entries: Vec::new(alloc),
            classes: Vec::new(alloc),
            rules: Vec::new(alloc),
        }
    }

    /// The chart of the path of a rule, as that of a rule that allows reading.
    pub(crate) fn of_path(alloc: Global, rule: &Rule) -> Result<Chart, AllocError>
        ensures chart { IfOk result (IsChartOf (reading (rule_value rule.now) ∷ [])) }
        ensures one { IfOk result (λ chart. length chart.rules.items ≡ 1) }
    {
        let mut chart = Chart::blank(alloc);
        chart.draw_path(rule)?;
        Ok(chart)
    }

    // Draws the path of one more rule.
    fn draw_path(&mut self, rule: &Rule) -> Result<(), AllocError>
        requires { IsPartOfChart self.old }
        ensures { OnOk result (HasOneMore self.old self.new (reading (rule_value rule.now))) }
    {
        let end = self.places.len();
        // An end takes nothing, so nothing goes on from it, whatever follows.
        self.places.push(ChartPlace {
            takes: Label::Nothing,
            behind: 0,
        })?;
        let last = self.entry(Entry::Place(end))?;
        let start = self.draw_items(rule.items(), last)?;
        self.rules.push(ChartRule {
            end,
            start,
            kind: RuleKind::Allow,
            perms: Perms::NONE.with(Permission::Read),
        })?;
        Ok(())
    }

    // Draws items before an entry, and returns the entry before them.
    #[cycle(draw)]
    fn draw_items(&mut self, items: &[Item], behind: usize) -> Result<usize, AllocError>
        requires { IsReady self.old behind }
        ensures { IfOk result (IsDrawn self.old self.new (meaning_of items.now) behind) }
    {
        let mut entry = behind;
        for item in items.iter().rev() {
            entry = self.draw_item(item, entry)?;
        }
        Ok(entry)
    }

    #[cycle(draw)]
    fn draw_item(&mut self, item: &Item, behind: usize) -> Result<usize, AllocError>
        requires { IsReady self.old behind }
        ensures { IfOk result (IsDrawn self.old self.new (meaning item.now) behind) }
    {
        match item {
            Item::Byte(byte) => self.draw_one(Label::Byte(*byte), behind),
            Item::AnyByte => self.draw_one(Label::InComponent, behind),
            Item::Class(class) => self.draw_class(class, behind),
            Item::Stars(stars) => self.draw_stars(*stars, behind),
            Item::Group(alternatives) => self.draw_alternatives(alternatives, behind),
        }
    }

    // Draws alternatives, each before the same entry.
    #[cycle(draw)]
    fn draw_alternatives(
        &mut self,
        alternatives: &[Vec<Item>],
        behind: usize,
    ) -> Result<usize, AllocError>
        requires { IsReady self.old behind }
        ensures { IfOk result (IsDrawn self.old self.new (alternatives_meaning alternatives.now) behind) }
    {
        let mut entry = self.entry(Entry::Nothing)?;
        for items in alternatives.iter().rev() {
            let one = self.draw_items(items, behind)?;
            entry = self.entry(Entry::Either(one, entry))?;
        }
        Ok(entry)
    }

    // Draws a class.
    fn draw_class(&mut self, class: &Class, behind: usize) -> Result<usize, AllocError>
        requires { IsReady self.old behind }
        ensures { IfOk result (IsDrawn self.old self.new (one (ByteSet.class class.now.negated class.now.ranges)) behind) }
    {
        let mut taken = [false; 256];
        for byte in 0..256 {
            taken[byte] = class.takes(byte as u8);
        }
        let number = self.classes.len();
        self.classes.push(taken)?;
        self.draw_one(Label::Class(number), behind)
    }

    // Draws a run of stars.
    fn draw_stars(&mut self, stars: Stars, behind: usize) -> Result<usize, AllocError>
        requires { IsReady self.old behind }
        ensures { IfOk result (IsDrawn self.old self.new (stars_glob stars.crosses_slashes stars.strict) behind) }
    {
        let takes = if stars.crosses_slashes {
            Label::Any
        } else {
            Label::InComponent
        };
        let run = self.draw_run(takes, behind)?;
        if stars.strict {
            self.draw_one(Label::InComponent, run)
        } else {
            Ok(run)
        }
    }

    // Draws a place that takes one byte.
    fn draw_one(&mut self, takes: Label, behind: usize) -> Result<usize, AllocError>
        requires { IsReady self.old behind }
        ensures drawn { IfOk result (λ start. (set : ByteSet) → IsKnown self.old takes → TakesSet self.old takes set →
            IsDrawn self.old self.new (one set) behind start) }
        ensures classes { self.new.classes ≡ self.old.classes }
    {
        let place = self.places.len();
        self.places.push(ChartPlace { takes, behind })?;
        self.entry(Entry::Place(place))
    }

    // Draws a place that takes any number of bytes.
    fn draw_run(&mut self, takes: Label, behind: usize) -> Result<usize, AllocError>
        requires { IsReady self.old behind }
        ensures drawn { IfOk result (λ start. (set : ByteSet) → IsKnown self.old takes → TakesSet self.old takes set →
            IsDrawn self.old self.new (run set) behind start) }
        ensures classes { self.new.classes ≡ self.old.classes }
    {
        let place = self.places.len();
        let entry = self.entry(Entry::Run { place, behind })?;
        self.places.push(ChartPlace {
            takes,
            behind: entry,
        })?;
        Ok(entry)
    }

    /// Whether two charts have the same places, entries, classes and rules.
    pub(crate) fn is_same(&self, other: &Chart) -> bool
        ensures { IsTrue result → AreSame self.now other.now }
    {
        if self.places != other.places || self.entries != other.entries {
            return false;
        }
        self.classes == other.classes && self.rules == other.rules
    }

    /// Whether the label takes a byte.
    pub(crate) fn takes(&self, takes: Label, byte: u8) -> bool
        requires { IsKnown self.now takes }
        ensures { result ≡ takes_byte self.now.classes.items takes byte }
    {
        match takes {
            Label::Byte(taken) => byte == taken && byte != 0,
            Label::InComponent => byte != b'/' && byte != 0,
            Label::Any => byte != 0,
            Label::Class(class) => self.classes[class][byte as usize],
            Label::Nothing => false,
        }
    }

    // Adds an entry.
    fn entry(&mut self, entry: Entry) -> Result<usize, AllocError>
        ensures number { IfOk result (λ number. number ≡ length self.old.entries.items) }
        ensures entries { IfOk result (λ _. self.new.entries.items ≡ self.old.entries.items ++ entry ∷ []) }
        ensures places { self.new.places ≡ self.old.places }
        ensures classes { self.new.classes ≡ self.old.classes }
        ensures rules { self.new.rules ≡ self.old.rules }
    {
        let number = self.entries.len();
        self.entries.push(entry)?;
        Ok(number)
    }
}
