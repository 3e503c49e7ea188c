// One call of a line.
use ask_weights::Asked;
use filter_fields::Name;
use plans::Request;
use refusal::Numbered;
use request_fields::{Fault, Reason, Words};

#[derive(Clone, Copy)]
pub(crate) enum Call<'a> {
    // r FIRST SECOND: a restart with these shares
    Restart {
        first: u32,
        second: u32,
    },
    // p CLIENT KIND ADAPT AXIS SW SH OUT L T W H: a set put in
    Put {
        client: u32,
        request: Request,
    },
    // u CLIENT ROW FIRST COUNT SAMPLES NOUT: a pass, the last two words of which are still to be looked at and read
    Pass {
        client: u32,
        row: u32,
        first: u32,
        count: u32,
        lists: Words<'a>,
    },
}

impl<'a> Call<'a> {
    // Whether a part of the line is a call, with all its fields.
    pub(crate) fn is_one(part: &[u8]) -> bool {
        match Call::read(part) {
            Ok(Call::Pass { lists, .. }) => seen(lists).is_ok(),
            Ok(_) => true,
            Err(_) => false,
        }
    }

    // The call, its fields cut at each colon.
    pub(crate) fn read(part: &'a [u8]) -> Result<Call<'a>, Fault> {
        let mut words = Words::cut(part, b':');
        match words.word()? {
            b"r" => restart(words),
            b"p" => put(words),
            b"u" => pass(words),
            _ => Err(words.fault(Reason::NoRequest)),
        }
    }
}

// The fields of a restart.
fn restart(mut words: Words<'_>) -> Result<Call<'_>, Fault> {
    let first = words.number()?;
    let second = words.number()?;
    words.end()?;
    Ok(Call::Restart { first, second })
}

// The fields of a put.
fn put(mut words: Words<'_>) -> Result<Call<'_>, Fault> {
    let client = words.number()?;
    let name = Name::read(&mut words)?;
    let asked = Asked::read(&mut words)?;
    words.end()?;
    let request = asked.by(name.filter()?);
    Ok(Call::Put { client, request })
}

// The fields of a pass.
fn pass(mut words: Words<'_>) -> Result<Call<'_>, Fault> {
    let client = words.number()?;
    let row = words.number()?;
    let first = words.number()?;
    let count = words.number()?;
    Ok(Call::Pass {
        client,
        row,
        first,
        count,
        lists: words,
    })
}

// The lists of a pass, only looked at.
fn seen(mut lists: Words<'_>) -> Result<(), Fault> {
    lists.seen::<u16>()?;
    lists.length()?;
    lists.end()
}
