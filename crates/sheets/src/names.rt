// The writer's answer as Rattle names it, compared with that for C. A line with a question mark is printed where they differ, so that the output is another.
use dhcpopt_writer::PlainWrote;
use plan::Choice;
use refusal::Refusal;
use std::io;
use std::io::Stdout;

fn same(c: Result<Choice, Refusal>, w: PlainWrote) -> bool {
    let (refusal, place, plan) = match c {
        Ok(Choice { plan, single: _ }) => (0, 0, u32::from(plan)),
        Err(Refusal { rule, place }) => (rule.number(), place, 0),
    };
    (w.refusal, w.place, w.plan) == (refusal, place, plan)
}

// Writes the sheet once more, by the library's own call, into a buffer of that length.
pub fn written(
    to: Stdout,
    sheet: &[u8],
    length: usize,
    permission: u8,
    w: PlainWrote,
) -> io::Result<()> {
    let mut buffer = [0; 1600];
    let Some(lent) = buffer.get_mut(..length) else {
        return Ok(());
    };
    if !same(writer::write(sheet, lent, permission), w) {
        println!(to; "names?")?;
    }
    Ok(())
}
