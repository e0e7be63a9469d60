//! The commands of the program, and the words that each takes.

// How a word is given: by its place, where a command can do without it or not; or behind two dashes, alone or with a value.
#[derive(Clone, Copy)]
pub(crate) enum Form {
    Required,
    Optional,
    Flag,
    Value(&'static str),
}

// What else is asked of a word.
#[derive(Clone, Copy)]
pub(crate) enum Rule {
    Nothing,
    Kind,
    Files,
    List,
    Table,
    Meter,
    Limit,
    Clock,
    Count,
    Port,
    Origins,
    Renamed,
}

// A word that a command takes.
#[derive(Clone, Copy)]
pub(crate) struct Word {
    pub(crate) name: &'static str,
    pub(crate) form: Form,
    pub(crate) help: &'static str,
    pub(crate) rule: Rule,
}

const OFFICE: Word = Word {
    name: "OFFICE",
    form: Form::Required,
    help: "The office file (TOML)",
    rule: Rule::Nothing,
};

const OFFICE_OR_SAMPLE: Word = Word {
    name: "OFFICE",
    form: Form::Optional,
    help: "The office file (TOML); without it, the sample office",
    rule: Rule::Nothing,
};

const STORE: Word = Word {
    name: "STORE",
    form: Form::Required,
    help: "The store file (SQLite)",
    rule: Rule::Nothing,
};

const STORE_OR_NEW: Word = Word {
    name: "STORE",
    form: Form::Required,
    help: "The store file (SQLite); made where nothing is there",
    rule: Rule::Nothing,
};

const KIND: Word = Word {
    name: "KIND",
    form: Form::Optional,
    help: "What the files hold",
    rule: Rule::Kind,
};

const FILES: Word = Word {
    name: "FILE",
    form: Form::Optional,
    help: "The file, of at most 262,144 bytes; or more files",
    rule: Rule::Files,
};

const LIST: Word = Word {
    name: "list",
    form: Form::Value("LIST"),
    help: "A list of files, a line each: KIND FILE, or readouts FILE METER; paths from its folder",
    rule: Rule::List,
};

const ACCOUNT: Word = Word {
    name: "ACCOUNT",
    form: Form::Required,
    help: "The account's name",
    rule: Rule::Nothing,
};

const MONTH: Word = Word {
    name: "MONTH",
    form: Form::Required,
    help: "The month, as 2024-01",
    rule: Rule::Nothing,
};

const TABLE: Word = Word {
    name: "WHAT",
    form: Form::Required,
    help: "The table",
    rule: Rule::Table,
};

const METER: Word = Word {
    name: "meter",
    form: Form::Value("ID"),
    help: "The meter of the readouts",
    rule: Rule::Meter,
};

const ONE_METER: Word = Word {
    name: "meter",
    form: Form::Value("ID"),
    help: "Of the readings, those of this meter alone",
    rule: Rule::Nothing,
};

const LIMIT: Word = Word {
    name: "limit",
    form: Form::Value("N"),
    help: "The most records of the book",
    rule: Rule::Limit,
};

const CLOCK: Word = Word {
    name: "clock",
    form: Form::Value("CLOCK"),
    help: "The clock that readouts tell their time by",
    rule: Rule::Clock,
};

const VERBOSE: Word = Word {
    name: "verbose",
    form: Form::Flag,
    help: "Tells each period too: its start, and by band the prices of import and export",
    rule: Rule::Nothing,
};

const COUNT: Word = Word {
    name: "count",
    form: Form::Value("N"),
    help: "How many connections are served; without it, any number",
    rule: Rule::Count,
};

const UNTIL_INPUT_ENDS: Word = Word {
    name: "until-input-ends",
    form: Form::Flag,
    help: "Ends at the end of standard input: what is whole is answered, and the store is closed",
    rule: Rule::Nothing,
};

const PORT: Word = Word {
    name: "port",
    form: Form::Value("P"),
    help: "The port on 127.0.0.1",
    rule: Rule::Port,
};

const ORIGINS: Word = Word {
    name: "origin",
    form: Form::Value("URL"),
    help: "Whose pages may ask too: http:// or https://, a host, and its port; may stand more than once",
    rule: Rule::Origins,
};

const TELL: Word = Word {
    name: "tell",
    form: Form::Flag,
    help: "Tells each upload that was answered on standard error: when, where to, and the status",
    rule: Rule::Nothing,
};

const NEW_OFFICE: Word = Word {
    name: "NEW_OFFICE",
    form: Form::Required,
    help: "The other office file (TOML)",
    rule: Rule::Nothing,
};

const NEW_STORE: Word = Word {
    name: "NEW_STORE",
    form: Form::Required,
    help: "The new store file (SQLite); nothing may be there",
    rule: Rule::Nothing,
};

const RENAMED: Word = Word {
    name: "rename",
    form: Form::Value("OLD"),
    help: "The account, meter or band OLD is called NEW in the new file; may stand more than once",
    rule: Rule::Renamed,
};

const DRY_RUN: Word = Word {
    name: "dry-run",
    form: Form::Flag,
    help: "Tells what would be done, and changes nothing",
    rule: Rule::Nothing,
};

const ALL: Word = Word {
    name: "all",
    form: Form::Flag,
    help: "Prints which records of the store stand in none of the files, too",
    rule: Rule::Nothing,
};

// A command: its name, what it does, how it ends with an example, and the words that it takes.
#[derive(Clone, Copy)]
pub(crate) struct Asked {
    pub(crate) name: &'static str,
    pub(crate) about: &'static str,
    pub(crate) end: &'static str,
    pub(crate) words: &'static [Word],
}

pub(crate) static COMMANDS: [Asked; 13] = [
    Asked {
        name: "read",
        about: "Prints the frames of a body on standard input: meters, stamps, registers in watt-hours",
        end: "Exit status: 0; 1 refused; 2 wrong words; 3 a stream or memory failed.\nExample: powerbook read < telegram.txt",
        words: &[CLOCK],
    },
    Asked {
        name: "check",
        about: "Reads an office file, and prints how many accounts, meters, bands and periods it has",
        end: "Exit status: 0; 1 refused; 2 wrong words; 3 the file or memory failed.\nExamples:\n  powerbook check office.toml\n  powerbook check --verbose office.toml",
        words: &[OFFICE, VERBOSE],
    },
    Asked {
        name: "pipe",
        about: "Reads HTTP requests on standard input and prints the replies; records are kept in memory until the end",
        end: "Exit status: 0; 1 refused; 2 wrong words; 3 a file, stream or memory failed.\nExample: powerbook pipe office.toml < requests.txt",
        words: &[OFFICE_OR_SAMPLE, LIMIT],
    },
    Asked {
        name: "load",
        about: "Loads files of telegrams, readouts, assignments, top-ups or withdrawals into a store, each whole or not at all",
        end: "With more than one file each line stands behind its file's name, and one that is refused doesn't stop the rest.\nExit status: 0; 1 refused; 2 wrong words; 3 a file, stream, store or memory failed.\nExamples:\n  powerbook load office.toml book.db telegrams day.txt\n  powerbook load office.toml book.db telegrams monday.txt tuesday.txt\n  powerbook load office.toml book.db --list loads",
        words: &[OFFICE, STORE_OR_NEW, KIND, FILES, LIST, METER, LIMIT],
    },
    Asked {
        name: "statement",
        about: "Prints an account's energies, top-ups and balance",
        end: "Exit status: 0; 1 refused; 2 wrong words; 3 a file, stream, store or memory failed.\nExample: powerbook statement office.toml book.db A1",
        words: &[OFFICE, STORE, ACCOUNT],
    },
    Asked {
        name: "bill",
        about: "Prints an account's bill of a month: what was used and topped up in it, and the balances at both ends",
        end: "Exit status: 0; 1 refused; 2 wrong words; 3 a file, stream, store or memory failed.\nExample: powerbook bill office.toml book.db A1 2024-01",
        words: &[OFFICE, STORE, ACCOUNT, MONTH],
    },
    Asked {
        name: "days",
        about: "Prints the days of an account's month as CSV: watt-hours and what they cost",
        end: "Exit status: 0; 1 refused; 2 wrong words; 3 a file, stream, store or memory failed.\nExample: powerbook days office.toml book.db A1 2024-01",
        words: &[OFFICE, STORE, ACCOUNT, MONTH],
    },
    Asked {
        name: "why",
        about: "Prints why an account's bill of a month is what it is, as CSV: two readings for each row, and top-ups",
        end: "Exit status: 0; 1 refused; 2 wrong words; 3 a file, stream, store or memory failed.\nExample: powerbook why office.toml book.db A1 2024-01",
        words: &[OFFICE, STORE, ACCOUNT, MONTH],
    },
    Asked {
        name: "export",
        about: "Prints a table of a store: readings, energy, assignments, topups and withdrawals as CSV, accounts, falls and disputes as text",
        end: "Exit status: 0; 1 refused; 2 wrong words; 3 a file, stream, store or memory failed.\nExample: powerbook export office.toml book.db readings > readings.csv",
        words: &[OFFICE, STORE, TABLE, ONE_METER],
    },
    Asked {
        name: "serve",
        about: "Serves a store to HTTP clients of this machine",
        end: "Exit status: 0; 1 refused; 2 wrong words; 3 a file, socket, store or memory failed.\nExamples:\n  powerbook serve office.toml book.db\n  powerbook serve office.toml book.db --count 100",
        words: &[
            OFFICE,
            STORE_OR_NEW,
            COUNT,
            UNTIL_INPUT_ENDS,
            PORT,
            LIMIT,
            ORIGINS,
            TELL,
        ],
    },
    Asked {
        name: "adopt",
        about: "Gives a store another office file, where nothing that was reckoned changes by it: new accounts and meters, other names, later periods",
        end: "What the new file says otherwise is told, a line for each change. The figures of all that is held stay as they are.\nExit status: 0; 1 refused; 2 wrong words; 3 a file, stream, store or memory failed.\nExamples:\n  powerbook adopt office.toml book.db new.toml --dry-run\n  powerbook adopt office.toml book.db new.toml --rename A1 A7",
        words: &[OFFICE, STORE, NEW_OFFICE, RENAMED, DRY_RUN],
    },
    Asked {
        name: "carry",
        about: "Takes all records of a store into a new store of another office file, by the names of accounts and meters",
        end: "Each account whose balance is another one then is told, with both balances. Not one record of STORE changes.\nExit status: 0; 1 refused; 2 wrong words; 3 a file, stream, store or memory failed.\nExample: powerbook carry office.toml book.db new.toml new.db",
        words: &[OFFICE, STORE, NEW_OFFICE, NEW_STORE],
    },
    Asked {
        name: "verify",
        about: "Reads files of uploads again, and prints which of their records a store lacks",
        end: "Exit status: 0 none is lacking; 1 some are, or a file is refused; 2 wrong words; 3 a file, stream, store or memory failed.\nExamples:\n  powerbook verify office.toml book.db telegrams day.txt\n  powerbook verify office.toml book.db --list loads --all",
        words: &[OFFICE, STORE, KIND, FILES, LIST, METER, ALL],
    },
];
