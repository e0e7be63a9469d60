//! The words behind the program's name.

ghost use Rattle.std.specs.Prelude.{◌≤◌, IfSome};

// The most meters of a sample.
const MOST_METERS: u32 = 250;

// The most days of a sample.
const MOST_DAYS: u32 = 366;

/// How the words are, for whoever asks or has others.
pub const USAGE: &str = "usage: powerbook-sample --meters M --days D --seed S OUT

Makes the folder OUT with a cooperative to try powerbook on: the office file office.toml of M meters (1 to 250), and D days
(1 to 366, from 25 March 2024 on) of uploads. The same seed S (a whole number) gives the same bytes.

  loads        the uploads in order, a line each: kind, file, and for readouts the meter
  accounts     the names of the accounts, one a line
  figures.txt  how much of each kind there is, a line each: name and value

Exit status: 0; 2 wrong words; 3 a folder, a file, a stream or memory failed.
Example: powerbook-sample --meters 20 --days 7 --seed 1 sample
";

/// What the words ask for.
#[derive(Clone, Copy)]
pub enum Asked<'a> {
    /// How the words are.
    Help,
    /// A sample of so many meters and days, in a folder.
    Sample {
        meters: u32,
        days: u32,
        seed: u64,
        out: &'a str,
    },
}

// What a word that follows stands for.
#[derive(Drop)]
enum Flag {
    Meters,
    Days,
    Seed,
}

// The words read so far.
#[derive(Clone, Copy)]
struct Given<'a> {
    meters: Option<u64>,
    days: Option<u64>,
    seed: Option<u64>,
    out: Option<&'a str>,
}

/// What the words behind the program's name ask for, if they ask for anything.
pub fn read_words(words: &[String]) -> Option<Asked<'_>> {
    let mut given = Given {
        meters: None,
        days: None,
        seed: None,
        out: None,
    };
    let mut flag = None;
    for word in words {
        flag = match flag {
            Some(flag) => {
                given = with_number(given, flag, word.as_str())?;
                None
            }
            None => match word.as_str() {
                "--help" | "-h" => return Some(Asked::Help),
                "--meters" => Some(Flag::Meters),
                "--days" => Some(Flag::Days),
                "--seed" => Some(Flag::Seed),
                out => {
                    given = with_folder(given, out)?;
                    None
                }
            },
        };
    }
    match flag {
        Some(_) => None,
        None => sample_of(given),
    }
}

fn with_number<'a>(given: Given<'a>, flag: Flag, word: &str) -> Option<Given<'a>> {
    let number = word.parse::<u64>().ok()?;
    let mut given = given;
    let before = match flag {
        Flag::Meters => given.meters.replace(number),
        Flag::Days => given.days.replace(number),
        Flag::Seed => given.seed.replace(number),
    };
    match before {
        None => Some(given),
        Some(_) => None,
    }
}

fn with_folder<'a>(given: Given<'a>, word: &'a str) -> Option<Given<'a>> {
    if given.out.is_some() || word.is_empty() || word.as_bytes()[0] == b'-' {
        return None;
    }
    let mut given = given;
    given.out = Some(word);
    Some(given)
}

fn sample_of(given: Given<'_>) -> Option<Asked<'_>> {
    Some(Asked::Sample {
        meters: within(given.meters?, MOST_METERS)?,
        days: within(given.days?, MOST_DAYS)?,
        seed: given.seed?,
        out: given.out?,
    })
}

// A number from 1 up to a bound, if it is one.
fn within(number: u64, most: u32) -> Option<u32>
    ensures { IfSome result (λ n. (1 ≤ n) × (n ≤ most)) }
{
    match u32::try_from(number) {
        Ok(number) if 1 <= number && number <= most => Some(number),
        _ => None,
    }
}
