//! The headings, and where the lines after them stand.
ghost use Rattle.std.specs.Prelude.{◌≡◌, ◌≤◌, ◌||◌, map, bytes_eq, codes, IfSome};
ghost use Rattle.script_text.specs.Numbers.{decimal_of as plain_decimal_of};
ghost use Rattle.script_text.specs.Headings.{at_the_start, is_finish as plain_is_finish, is_heading as plain_is_heading, after_setup as plain_after_setup, after_number as plain_after_number, after_client as plain_after_client, after_finish as plain_after_finish, after_heading as plain_after_heading};

use crate::numbers::decimal_of;
use crate::script::{Section, Standing};

/// How many clients a script has at most.
const MOST_CLIENTS: u64 = 16;

impl Standing {
    /// Where the first line stands.
    pub(crate) fn start() -> Standing
        ensures { result ≡ at_the_start }
    {
        Standing {
            begun: false,
            section: Section::Setup,
            clients: 0,
        }
    }
}

fn is_finish(section: Section) -> bool
    ensures { result ≡ plain_is_finish section }
{
    match section {
        Section::Setup | Section::Client(_) => false,
        Section::Finish => true,
    }
}

/// Whether a line's first word makes it a heading.
pub(crate) fn is_heading(first: &str) -> bool
    ensures { result ≡ plain_is_heading first.now }
{
    matches!(first, "setup" | "client" | "finish")
}

fn after_setup(standing: Standing, rest: &[&[u8]]) -> Option<Standing>
    ensures { result ≡ plain_after_setup standing (map (λ word. word.now) rest.now) }
{
    if rest.is_empty() && !standing.begun {
        Some(Standing {
            begun: true,
            section: Section::Setup,
            clients: 0,
        })
    } else {
        None
    }
}

fn after_number(standing: Standing, number: Option<u64>) -> Option<Standing>
    ensures { result ≡ plain_after_number standing number }
{
    match number {
        Some(number)
            if !is_finish(standing.section)
                && number == standing.clients as u64 + 1
                && number <= MOST_CLIENTS => {
            Some(Standing {
                begun: true,
                section: Section::Client(number as u32),
                clients: number as u32,
            })
        }
        _ => None,
    }
}

fn after_client(standing: Standing, rest: &[&[u8]]) -> Option<Standing>
    ensures { result ≡ plain_after_client standing (map (λ word. word.now) rest.now) }
{
    match rest {
        [number] => after_number(standing, decimal_of(number)),
        _ => None,
    }
}

fn after_finish(standing: Standing, rest: &[&[u8]]) -> Option<Standing>
    ensures { result ≡ plain_after_finish standing (map (λ word. word.now) rest.now) }
{
    if rest.is_empty() && !is_finish(standing.section) {
        Some(Standing {
            begun: true,
            section: Section::Finish,
            clients: standing.clients,
        })
    } else {
        None
    }
}

/// Where the lines after a heading stand; `None` where it is wrong or out of its place.
pub(crate) fn after_heading(standing: Standing, first: &str, rest: &[&[u8]]) -> Option<Standing>
    ensures { result ≡ plain_after_heading standing first.now (map (λ word. word.now) rest.now) }
{
    match first {
        "setup" => after_setup(standing, rest),
        "client" => after_client(standing, rest),
        _ => after_finish(standing, rest),
    }
}
