use crate::data::{Report, ReportError};
use descriptions::{Description, Place};
use refusals::Refusal;
use std::fmt;
use tables::{Link, Table};

// By functions: a crate gives no `Display` to another's types.

// Bytes as text; one that has no glyph of its own as `?`.
fn show_bytes<W: fmt::Write>(bytes: &[u8], f: &mut fmt::Formatter<W>) -> fmt::Result {
    for b in bytes {
        let c = match *b {
            b'!'..=b'~' => *b as char,
            _ => '?',
        };
        write!(f, "{c}")?;
    }
    Ok(())
}

// The pattern, at most its first 512 bytes.
fn show_pattern<W: fmt::Write>(pattern: &[u8], f: &mut fmt::Formatter<W>) -> fmt::Result {
    let shown = pattern.get(..512).unwrap_or(pattern);
    show_bytes(shown, f)
}

// The pattern with a mark under the byte that the refusal points at, and what is wrong.
fn show_refusal<W: fmt::Write>(
    pattern: &[u8],
    e: Refusal,
    f: &mut fmt::Formatter<W>,
) -> fmt::Result {
    let number = e.number();
    let Some(p) = e.place() else {
        return write!(f, "refused {number}, {e}");
    };
    show_pattern(pattern, f)?;
    write!(f, "\n")?;
    for _ in 0..p {
        write!(f, " ")?;
    }
    write!(f, "^ refused {number} at {p}, {e}")
}

// A place: where it stands, what it takes, its width and low, whether it is a first or a last.
fn show_place<W: fmt::Write>(place: &Place, f: &mut fmt::Formatter<W>) -> fmt::Result {
    write!(f, "at {}: ", place.byte)?;
    show_bytes(place.spelled.as_slice(), f)?;
    write!(f, ", width {}, low {}", place.width, place.low)?;
    if place.first {
        write!(f, ", first")?;
    }
    if place.last {
        write!(f, ", last")?;
    }
    Ok(())
}

// The links from the place p, on a line of their own.
fn show_links<W: fmt::Write>(table: &Table, p: usize, f: &mut fmt::Formatter<W>) -> fmt::Result {
    let mut some = false;
    for q in 1..65 {
        let links = table.links(p, q);
        if links.is_empty() {
            continue;
        }
        if some {
            write!(f, ", {q}")?;
        } else {
            write!(f, "\n{p} -> {q}")?;
        }
        some = true;
        for link in [Link::Within, Link::Next, Link::Cross] {
            if links.has(link) {
                write!(f, " {link}")?;
            }
        }
    }
    Ok(())
}

// The first lines: the kind, the pattern, and what it takes of what is allowed.
fn show_head<W: fmt::Write>(d: &Description<'_>, f: &mut fmt::Formatter<W>) -> fmt::Result {
    let count = d.places.len();
    let nullable = if d.table.is_nullable() { "yes" } else { "no" };
    write!(f, "kind: {}\n", d.kind)?;
    show_pattern(d.pattern, f)?;
    write!(
        f,
        "\nplaces {count} of 64, counts {} of 4096, nullable {nullable}",
        d.counts
    )
}

// One line for each place.
fn show_places<W: fmt::Write>(places: &[Place], f: &mut fmt::Formatter<W>) -> fmt::Result {
    for (i, place) in places.iter().enumerate() {
        let number = i + 1;
        write!(f, "\n{number} ")?;
        show_place(place, f)?;
    }
    Ok(())
}

// The head, the places, and the links from each place.
fn show_description<W: fmt::Write>(d: &Description<'_>, f: &mut fmt::Formatter<W>) -> fmt::Result {
    show_head(d, f)?;
    show_places(d.places.as_slice(), f)?;
    for p in 0..65 {
        show_links(&d.table, p, f)?;
    }
    Ok(())
}

impl fmt::Display for Report<'_> {
    fn fmt<W: fmt::Write>(&self, f: &mut fmt::Formatter<W>) -> fmt::Result {
        show_description(&self.described, f)
    }
}

impl fmt::Display for ReportError<'_> {
    fn fmt<W: fmt::Write>(&self, f: &mut fmt::Formatter<W>) -> fmt::Result {
        match self {
            ReportError::Refused(pattern, e) => show_refusal(pattern, *e, f),
            ReportError::UnknownKind => write!(f, "the first line must be letters or tiles"),
        }
    }
}
