// Sections of records: which record is next, and the lines that are written.
ghost use Rattle.std.specs.Prelude.{◌≡◌, ◌<◌, length, IfOk, OnErr, None};
ghost use Rattle.report.specs.Sections.{section_at, first_at, moved_of, after_of, next_of, WritesLine};

use std::io;
use wire::read::{Cursor, Span};

// A section, with the place of its next record. Each record takes up a byte or more, so no count of them wraps.
#[derive(Clone, Copy)]
pub struct Section {
    pub kind: u8,
    pub name: Span,
    pub base: Span,
    pub count: u32,
    pub ran: u32,
    pub agreed: u32,
    pub next: Cursor,
}

// Names a record that differs, one of the first 16 of its section.
fn write_differs(rt: &impl Print, name: &[u8], index: u32, before: u32) -> io::Result<()> {
    if 16 <= before {
        return Ok(());
    }
    rt.write_all(name)?;
    println!(rt; " {index} differs")
}

fn write_count(rt: &impl Print, name: &[u8], agreed: u32, count: u32) -> io::Result<()> {
    rt.write_all(name)?;
    println!(rt; " {agreed} of {count}")
}

fn malformed(rt: &impl Print, at: usize) -> io::Result<Option<Section>>
    ensures { IfOk result (λ step. step ≡ None) }
{
    println!(rt; "malformed at {at}")?;
    Ok(None)
}

// The section that starts at a place: kind, name, base and the number of its records.
fn read_section(s: &[u8], c: Cursor) -> Option<Section>
    ensures { result ≡ section_at s.now c.at }
{
    let (kind, a) = c.byte(s).ok()?;
    let name = a.string(s).ok()?;
    let base = name.next.string(s).ok()?;
    let (count, next) = base.next.number(s).ok()?;
    Some(Section {
        kind,
        name: Span::from(name),
        base: Span::from(base),
        count,
        ran: 0,
        agreed: 0,
        next,
    })
}

// The first record from a place on, which is the end or where a section starts. A section without records is malformed. A write can fail only where
// there is no record, before the end.
pub fn first(rt: &impl Print, s: &[u8], c: Cursor) -> io::Result<Option<Section>>
    ensures ok { IfOk result (λ step. step ≡ first_at s.now c.at) }
    ensures err { OnErr result ((c.at < length s.now) × (first_at s.now c.at ≡ None)) }
{
    if s.len() <= c.at {
        return Ok(None);
    }
    match read_section(s, c) {
        Some(x) if x.count != 0 => Ok(Some(x)),
        _ => malformed(rt, c.at),
    }
}

// A section behind its next record.
fn moved(x: Section, agreed: u32, next: Cursor) -> Section
    ensures { result ≡ moved_of x agreed next }
{
    Section {
        ran: x.ran.wrapping_add(1),
        agreed,
        next,
        ..x
    }
}

// The next record of the section, or the first behind it.
fn after(rt: &impl Print, s: &[u8], x: Section) -> io::Result<Option<Section>>
    ensures ok { IfOk result (λ step. step ≡ after_of s.now x) }
    ensures err { OnErr result (x.ran ≡ x.count) }
{
    if x.ran == x.count {
        write_count(rt, x.name.of(s), x.agreed, x.count)?;
        return first(rt, s, x.next);
    }
    Ok(Some(x))
}

// What is next, by whether a section's record agrees, with the place behind it, or is malformed. A write can fail only where there is a line to write.
pub fn next(
    rt: &impl Print,
    s: &[u8],
    x: Section,
    ran: Option<(bool, Cursor)>,
) -> io::Result<Option<Section>>
    ensures ok { IfOk result (λ step. step ≡ next_of s.now x ran) }
    ensures err { OnErr result (WritesLine x ran) }
{
    let Some((agrees, behind)) = ran else {
        return malformed(rt, x.next.at);
    };
    if agrees {
        return after(rt, s, moved(x, x.agreed.wrapping_add(1), behind));
    }
    write_differs(rt, x.name.of(s), x.ran, x.ran.wrapping_sub(x.agreed))?;
    after(rt, s, moved(x, x.agreed, behind))
}

// Judges record by record. Each takes up a byte or more, so there are no more of them than bytes. A write can fail only where there are bytes.
// The judges of the programs require nothing.
pub fn records<J: FnMut(Section) -> Option<(bool, Cursor)>>(
    rt: &impl Print,
    s: &[u8],
    mut judge: J,
) -> io::Result<()>
    requires { J.IsAlwaysCallable judge }
    ensures { OnErr result (0 < length s.now) }
{
    let mut step = first(rt, s, Cursor { at: 0 })?;
    for _ in 0..s.len() {
        let Some(x) = step else {
            return Ok(());
        };
        step = next(rt, s, x, judge(x))?;
    }
    Ok(())
}
