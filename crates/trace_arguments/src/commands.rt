//! The commands of the program, with the texts of their help.
use trace_forms::{ArgumentForm, CommandForm, NumberOption, OptionForm, Wants};

/// How many entries the tree of `run`, `test` and `steps` has room for.
pub(crate) const CAPACITY: NumberOption = NumberOption {
    name: "capacity",
    default: "1024",
    least: 1,
    most: 16384,
};

/// At how many defaults a byte may be looked up again, in the image that `compile` writes.
pub(crate) const DEPTH: NumberOption = NumberOption {
    name: "depth",
    default: "0",
    least: 0,
    most: 64,
};

/// How many sessions there are in a storm.
pub(crate) const SESSIONS: NumberOption = NumberOption {
    name: "sessions",
    default: "4",
    least: 1,
    most: 16,
};

/// How often each of them opens.
pub(crate) const OPENS: NumberOption = NumberOption {
    name: "opens",
    default: "1000",
    least: 1,
    most: 100000,
};

/// How often the tree is changed meanwhile, and the policy.
pub(crate) const CHANGES: NumberOption = NumberOption {
    name: "changes",
    default: "1000",
    least: 0,
    most: 100000,
};

const CAPACITY_OPTION: OptionForm = OptionForm {
    name: "capacity",
    wants: Wants::OneNumber(CAPACITY),
    help: "The number of entries that the tree has room for, 1 to 16384",
};

const DEPTH_OPTION: OptionForm = OptionForm {
    name: "depth",
    wants: Wants::OneNumber(DEPTH),
    help: "The number of defaults at which a byte may be looked up again, 0 to 64; 0 writes version 1 if that can hold the profile",
};

const VERBOSE: OptionForm = OptionForm {
    name: "verbose",
    wants: Wants::NoText,
    help: "Adds notes on what is refused, on standard error (short: -v)",
};

const QUIET: OptionForm = OptionForm {
    name: "quiet",
    wants: Wants::NoText,
    help: "Prints no answer: the exit status is 0 if the name is allowed, and 1 if not (short: -q)",
};

const JSON: OptionForm = OptionForm {
    name: "json",
    wants: Wants::NoText,
    help: "Writes one JSON object a line",
};

const EACH_RULE: OptionForm = OptionForm {
    name: "each-rule",
    wants: Wants::NoText,
    help: "One name for each rule, or for each pair of reasons",
};

const PROFILE_OPTION: OptionForm = OptionForm {
    name: "profile",
    wants: Wants::OneText("NAME"),
    help: "The profile that is imported, where the text has several",
};

const OWNER: OptionForm = OptionForm {
    name: "owner",
    wants: Wants::OneText("keep|drop"),
    help: "Whether rules for owners are kept as rules for everybody, or left out",
};

const FOR: OptionForm = OptionForm {
    name: "for",
    wants: Wants::OneText("owner|others"),
    help: "Whose verdicts the profile gives: the owner of the files has the rules for owners, and others don't",
};

const DEFINE: OptionForm = OptionForm {
    name: "define",
    wants: Wants::ManyTexts("VAR=VALUE"),
    help: "A value of a variable, as a line before the text would give it",
};

const OVERRIDE: OptionForm = OptionForm {
    name: "override",
    wants: Wants::NoText,
    help: "The values that are given replace those of the text",
};

const PERMS: ArgumentForm = ArgumentForm {
    name: "PERMS",
    is_required: true,
    is_repeated: false,
    help: "The permissions that are asked, by their letters: r, w, l, k, m, a",
};

const NAME: ArgumentForm = ArgumentForm {
    name: "NAME",
    is_required: true,
    is_repeated: false,
    help: "The name that is judged, from its first slash on",
};

const PATTERN: ArgumentForm = ArgumentForm {
    name: "PATTERN",
    is_required: true,
    is_repeated: false,
    help: "A path as rules have it, such as /etc/**",
};

const JUDGE: CommandForm = CommandForm {
    name: "judge",
    about: "Judges a name by the profile on standard input",
    examples: "Examples:\n  aa-trace judge r /etc/passwd < web.profile\n  \
               aa-trace judge -q w /srv/www/index.html < web.profile && echo allowed",
    options: &[VERBOSE, QUIET, JSON],
    arguments: &[PERMS, NAME],
};

/// The command that says why, by a profile or by a flattened text.
pub(crate) const EXPLAIN: CommandForm = CommandForm {
    name: "explain",
    about: "Judges a name by the profile on standard input, and says why",
    examples: "Examples:\n  aa-trace explain rw /etc/passwd < web.profile\n  \
               apparmor_parser -qQp /etc/apparmor.d/usr.bin.man | aa-trace explain --flattened r /etc/passwd",
    options: &[
        OptionForm {
            name: "flattened",
            wants: Wants::NoText,
            help: "Imports the profile from a flattened AppArmor text on standard input, and names the lines of that text",
        },
        PROFILE_OPTION,
        OWNER,
        FOR,
        DEFINE,
        OVERRIDE,
        JSON,
    ],
    arguments: &[PERMS, NAME],
};

const ANY: CommandForm = CommandForm {
    name: "any",
    about: "Finds a name that a pattern matches and the profile on standard input allows",
    examples: "Example:\n  aa-trace any w '/etc/**' < web.profile",
    options: &[EACH_RULE, JSON],
    arguments: &[PERMS, PATTERN],
};

const ALL: CommandForm = CommandForm {
    name: "all",
    about: "Tests that the profile on standard input allows all names that a pattern matches",
    examples: "Example:\n  aa-trace all r '/srv/www/**' < web.profile",
    options: &[JSON],
    arguments: &[PERMS, PATTERN],
};

const DIFF: CommandForm = CommandForm {
    name: "diff",
    about: "Finds the shortest names that only one of two profiles allows",
    examples: "Examples:\n  aa-trace diff old.profile new.profile\n  aa-trace diff --below '/srv/**' old.profile < new.profile",
    options: &[
        OptionForm {
            name: "below",
            wants: Wants::OneText("PATTERN"),
            help: "Only names that this path of a rule matches",
        },
        EACH_RULE,
        JSON,
    ],
    arguments: &[
        ArgumentForm {
            name: "OLD",
            is_required: true,
            is_repeated: false,
            help: "The file of the old profile",
        },
        ArgumentForm {
            name: "NEW",
            is_required: false,
            is_repeated: false,
            help: "The file of the new profile; standard input if it is left out",
        },
    ],
};

const LINT: CommandForm = CommandForm {
    name: "lint",
    about: "Finds rules of the profile on standard input that decide nothing",
    examples: "Example:\n  aa-trace lint < web.profile",
    options: &[JSON],
    arguments: &[],
};

const RUN: CommandForm = CommandForm {
    name: "run",
    about: "Runs a script of tree changes, policies and opens on standard input",
    examples: "Example:\n  aa-trace run < web.trace",
    options: &[VERBOSE, CAPACITY_OPTION],
    arguments: &[],
};

const TEST: CommandForm = CommandForm {
    name: "test",
    about: "Compares the answers of the script on standard input with those that it expects",
    examples: "Examples:\n  aa-trace test < web.test\n  aa-trace test --answers < web.test",
    options: &[
        VERBOSE,
        OptionForm {
            name: "answers",
            wants: Wants::NoText,
            help: "Writes each answer of the script, whether or not something is expected",
        },
        CAPACITY_OPTION,
        JSON,
    ],
    arguments: &[],
};

const COMPILE: CommandForm = CommandForm {
    name: "compile",
    about: "Writes the image of the profile on standard input",
    examples: "Example:\n  aa-trace compile < web.profile > web.image",
    options: &[VERBOSE, DEPTH_OPTION],
    arguments: &[],
};

const CHECK: CommandForm = CommandForm {
    name: "check",
    about: "Tests the image on standard input",
    examples: "Example:\n  aa-trace check < web.image",
    options: &[VERBOSE],
    arguments: &[],
};

const MATCH: CommandForm = CommandForm {
    name: "match",
    about: "Judges a name by the image on standard input",
    examples: "Example:\n  aa-trace match r /etc/passwd < web.image",
    options: &[VERBOSE, QUIET, JSON],
    arguments: &[PERMS, NAME],
};

const STEPS: CommandForm = CommandForm {
    name: "steps",
    about: "Runs a script of single events on standard input",
    examples: "Example:\n  aa-trace steps < events.trace",
    options: &[VERBOSE, CAPACITY_OPTION],
    arguments: &[],
};

const STORM: CommandForm = CommandForm {
    name: "storm",
    about: "Opens a file in threads concurrently with renames and new profiles, and counts the answers that aren't justified",
    examples: "Example:\n  aa-trace storm --sessions 8 --opens 5000",
    options: &[
        OptionForm {
            name: "sessions",
            wants: Wants::OneNumber(SESSIONS),
            help: "The number of sessions, each in a thread, 1 to 16",
        },
        OptionForm {
            name: "opens",
            wants: Wants::OneNumber(OPENS),
            help: "The number of opens of each session, 1 to 100000",
        },
        OptionForm {
            name: "changes",
            wants: Wants::OneNumber(CHANGES),
            help: "The number of renames meanwhile, and of new profiles, 0 to 100000",
        },
    ],
    arguments: &[],
};

/// The command that imports a profile of a flattened text.
pub(crate) const IMPORT: CommandForm = CommandForm {
    name: "import",
    about: "Brings the flattened AppArmor profile on standard input into this program's language, and gives an account of the rest",
    examples: "Examples:\n  apparmor_parser -qQp /etc/apparmor.d/usr.bin.man | aa-trace import > man.profile\n  \
               aa-trace import --for others --define 'HOME=/home/*/' --override --account none < flat.txt > my.profile",
    options: &[
        VERBOSE,
        PROFILE_OPTION,
        OWNER,
        FOR,
        DEFINE,
        OVERRIDE,
        OptionForm {
            name: "all",
            wants: Wants::NoText,
            help: "Imports each profile of the text, as a policy of a script",
        },
        OptionForm {
            name: "strict",
            wants: Wants::NoText,
            help: "Refuses where the imported profile isn't exact for the chosen subject",
        },
        OptionForm {
            name: "account",
            wants: Wants::OneText("changes|all|none"),
            help: "Lists what changes something, and sums (changes, the default), all that isn't kept as it is (all), or nothing (none)",
        },
        OptionForm {
            name: "map",
            wants: Wants::OneText("FILE"),
            help: "Writes to this file the place that each rule comes from",
        },
    ],
    arguments: &[],
};

const NAMES: CommandForm = CommandForm {
    name: "names",
    about: "Judges each name of the list on standard input, and writes those that are allowed",
    examples: "Examples:\n  find /srv -type f | aa-trace names r web.profile\n  \
               find /srv -type d -printf '%p/\\0' -o -printf '%p\\0' | aa-trace names -0 w web.profile",
    options: &[
        OptionForm {
            name: "not-allowed",
            wants: Wants::NoText,
            help: "Writes the names that aren't allowed (short: -n)",
        },
        OptionForm {
            name: "null",
            wants: Wants::NoText,
            help: "Names end with byte 0, and not with a line feed (short: -0)",
        },
        OptionForm {
            name: "verdict",
            wants: Wants::NoText,
            help: "Writes each name with its verdict",
        },
    ],
    arguments: &[
        PERMS,
        ArgumentForm {
            name: "PROFILE",
            is_required: true,
            is_repeated: false,
            help: "The file of the profile",
        },
    ],
};

const AUDIT: CommandForm = CommandForm {
    name: "audit",
    about: "Says what the rules of profiles say now about each denial of the log on standard input",
    examples: "Examples:\n  journalctl -k | aa-trace audit web.profile\n  aa-trace audit flattened/* < /var/log/audit/audit.log",
    options: &[JSON],
    arguments: &[ArgumentForm {
        name: "PROFILES",
        is_required: true,
        is_repeated: true,
        help: "The files of the profiles: in this program's language, or flattened texts",
    }],
};

/// The commands of one name and a profile.
pub(crate) const PROFILE_COMMANDS: &[CommandForm] = &[JUDGE, EXPLAIN];

/// The commands of all names.
pub(crate) const QUESTION_COMMANDS: &[CommandForm] = &[ANY, ALL, DIFF, LINT];

/// The commands of a script.
pub(crate) const SCRIPT_COMMANDS: &[CommandForm] = &[RUN, TEST];

/// The commands of the image of a profile.
pub(crate) const IMAGE_COMMANDS: &[CommandForm] = &[COMPILE, CHECK, MATCH];

/// The commands of single events, and of threads.
pub(crate) const EVENT_COMMANDS: &[CommandForm] = &[STEPS, STORM];

/// The commands of a flattened text, of a list of names and of a log.
pub(crate) const LIST_COMMANDS: &[CommandForm] = &[IMPORT, NAMES, AUDIT];
