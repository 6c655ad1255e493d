//! Defines the table of options. A row contains the name and the effect of an option, a flag that
//! is `true` if the option has a value, and the lines in the help of each program that takes the
//! option. Used by all modules that read arguments.

ghost use Rattle.std.specs.Prelude.{◌≡◌, ◌<◌, Some, is_some, map};
ghost use Rattle.logos_options.specs.Imports.{is_named, named_in, number, option_named, role_of, row_value, takes_value, word_of};

/// An option of `logos_cli` or `logos_show`. The rows of the table are in the order of the
/// variants.
#[derive(Clone, Copy, Debug, PartialEq, Eq)]
pub enum OptionName {
    Output,
    Check,
    Shape,
    Enum,
    At,
    Examples,
    Inputs,
    Json,
    Expect,
    Compare,
    Html,
    Mermaid,
    Color,
    DenyWarnings,
    MessageFormat,
    Help,
    Version,
}

/// The number of options.
pub(crate) const OPTIONS: usize = 17;

/// The effect of an option: it changes a setting, or requests an answer or a text.
#[derive(Clone, Copy, Debug, PartialEq, Eq)]
pub enum OptionRole {
    /// An option that changes a setting. Such an option is given at most once.
    Setting,
    /// An option that requests an answer about the lexers, such as `--examples`. At most one such
    /// option is given.
    Question,
    /// An option that requests a text, such as `--help`. No argument after the option is read.
    Text,
}

/// A row of the table of options.
#[derive(Clone, Copy)]
pub(crate) struct OptionRow {
    pub(crate) option: OptionName,
    /// The name, such as `--output`.
    pub(crate) word: &'static str,
    /// The short name, such as `-o`, if the option has one.
    pub(crate) letter: Option<&'static str>,
    pub(crate) has_value: bool,
    pub(crate) role: OptionRole,
    /// The lines in the help of `logos_cli`, if that program takes the option.
    pub(crate) cli: Option<&'static str>,
    /// The lines in the help of `logos_show`, if that program takes the option.
    pub(crate) show: Option<&'static str>,
}

/// The table of options.
pub(crate) const ROWS: [OptionRow; OPTIONS] = [
    OptionRow {
        option: OptionName::Output,
        word: "--output",
        letter: Some("-o"),
        has_value: true,
        role: OptionRole::Setting,
        cli: Some(
            "  -o, --output FILE  write to FILE, if its content is another
               FOLDER/
                     write the result of each INPUT to FOLDER, under its name
",
        ),
        show: None,
    },
    OptionRow {
        option: OptionName::Check,
        word: "--check",
        letter: Some("-c"),
        has_value: false,
        role: OptionRole::Setting,
        cli: Some(
            "  -c, --check        write nothing; status 1 if a file is missing or differs
",
        ),
        show: None,
    },
    OptionRow {
        option: OptionName::Shape,
        word: "--shape",
        letter: None,
        has_value: true,
        role: OptionRole::Setting,
        cli: Some(
            "      --shape SHAPE  tables: tables, and one loop over them (the default)
                     tailcall: a function for each state
                     state_machine: one loop over a state
",
        ),
        show: None,
    },
    OptionRow {
        option: OptionName::Enum,
        word: "--enum",
        letter: None,
        has_value: true,
        role: OptionRole::Setting,
        cli: None,
        show: Some(
            "      --enum NAME   show, or lex by, the enum NAME alone, or `module::NAME`
",
        ),
    },
    OptionRow {
        option: OptionName::At,
        word: "--at",
        letter: None,
        has_value: true,
        role: OptionRole::Question,
        cli: None,
        show: Some(
            "      --at L:C      print what matches from line L, column C of INPUT
",
        ),
    },
    OptionRow {
        option: OptionName::Examples,
        word: "--examples",
        letter: None,
        has_value: false,
        role: OptionRole::Question,
        cli: None,
        show: Some(
            "      --examples    print for each leaf a shortest text that it finds, and one
                    where another leaf is found in its place
",
        ),
    },
    OptionRow {
        option: OptionName::Inputs,
        word: "--inputs",
        letter: None,
        has_value: true,
        role: OptionRole::Question,
        cli: None,
        show: Some(
            "      --inputs N    print at most N inputs that together pass every edge of the
                    lexer's graph, a literal of Rust on each line
",
        ),
    },
    OptionRow {
        option: OptionName::Json,
        word: "--json",
        letter: None,
        has_value: false,
        role: OptionRole::Setting,
        cli: None,
        show: Some(
            "      --json        print an object of JSON on each line
",
        ),
    },
    OptionRow {
        option: OptionName::Expect,
        word: "--expect",
        letter: None,
        has_value: true,
        role: OptionRole::Setting,
        cli: None,
        show: Some(
            "      --expect LIST compare what would be printed with the file LIST; status 1
                    if they differ in more than the time that was taken
",
        ),
    },
    OptionRow {
        option: OptionName::Compare,
        word: "--compare",
        letter: None,
        has_value: false,
        role: OptionRole::Question,
        cli: None,
        show: Some(
            "      --compare     print whether the lexers of two files find the same, or a
                    shortest text on which they do not; status 1 if they differ
",
        ),
    },
    OptionRow {
        option: OptionName::Html,
        word: "--html",
        letter: None,
        has_value: true,
        role: OptionRole::Question,
        cli: None,
        show: Some(
            "      --html PAGE   write a page about the lexer to the file PAGE: its leaves, its
                    states, and INPUT with its items marked; `-` prints it
",
        ),
    },
    OptionRow {
        option: OptionName::Mermaid,
        word: "--mermaid",
        letter: None,
        has_value: false,
        role: OptionRole::Question,
        cli: None,
        show: Some(
            "      --mermaid     print the state diagram of the lexer as Mermaid text
",
        ),
    },
    OptionRow {
        option: OptionName::Color,
        word: "--color",
        letter: None,
        has_value: true,
        role: OptionRole::Setting,
        cli: Some(
            "      --color WHEN   always, never or auto: on a terminal, unless the variable
                     NO_COLOR has a value (the default)
",
        ),
        show: Some(
            "      --color WHEN  always, never or auto: on a terminal, unless the variable
                    NO_COLOR has a value (the default)
",
        ),
    },
    OptionRow {
        option: OptionName::DenyWarnings,
        word: "--deny-warnings",
        letter: None,
        has_value: false,
        role: OptionRole::Setting,
        cli: Some(
            "      --deny-warnings
                     write nothing, with status 1, if there are warnings
",
        ),
        show: Some(
            "      --deny-warnings
                    without INPUT: print nothing, with status 1, if there are
                    warnings
",
        ),
    },
    OptionRow {
        option: OptionName::MessageFormat,
        word: "--message-format",
        letter: None,
        has_value: true,
        role: OptionRole::Setting,
        cli: Some(
            "      --message-format FORMAT
                     human: a report (the default)
                     json: a line of JSON for each message
",
        ),
        show: Some(
            "      --message-format FORMAT
                    human: faults and warnings as a report (the default)
                    json: a line of JSON for each
",
        ),
    },
    OptionRow {
        option: OptionName::Help,
        word: "--help",
        letter: Some("-h"),
        has_value: false,
        role: OptionRole::Text,
        cli: Some(
            "  -h, --help         print this text
",
        ),
        show: Some(
            "  -h, --help        print this text
",
        ),
    },
    OptionRow {
        option: OptionName::Version,
        word: "--version",
        letter: Some("-V"),
        has_value: false,
        role: OptionRole::Text,
        cli: Some(
            "  -V, --version      print the version
",
        ),
        show: Some(
            "  -V, --version     print the version
",
        ),
    },
];

impl OptionName {
    /// Returns the option with the name or the short name `word`, such as `--output` or `-o`, or
    /// `None` if there is no such option.
    pub fn by_word(word: &str) -> Option<OptionName>
        ensures { result ≡ option_named word.now }
    {
        named_in(&ROWS, word)
    }

    /// Returns the name of the option, such as `--output`.
    pub fn word(self) -> &'static str
        ensures word { result.now ≡ word_of self }
        ensures named { option_named result.now ≡ Some self }
    {
        ROWS[self as usize].word
    }

    /// Returns whether the option has a value.
    pub fn takes_value(self) -> bool
        ensures { result ≡ takes_value self }
    {
        ROWS[self as usize].has_value
    }

    /// Returns the effect of the option.
    pub(crate) fn role(self) -> OptionRole
        ensures { result ≡ role_of self }
    {
        ROWS[self as usize].role
    }

    /// Returns the index of the option in the table.
    pub(crate) fn number(self) -> usize
        ensures number { result ≡ number self }
        ensures few { result < OPTIONS }
    {
        self as usize
    }
}

/// Returns the option of the first row in `rows` with the name or the short name `word`, or `None`
/// if there is no such row.
fn named_in(rows: &[OptionRow], word: &str) -> Option<OptionName>
    ensures { result ≡ named_in (map row_value rows.now) word.now }
{
    for row in rows {
        if is_named(row, word) {
            return Some(row.option);
        }
    }
    None
}

/// Returns whether `word` is the name or the short name of a row.
fn is_named(row: &OptionRow, word: &str) -> bool
    ensures { result ≡ is_named (row_value row.now) word.now }
{
    match row.letter {
        Some(letter) => (word == letter) | (word == row.word),
        None => word == row.word,
    }
}
