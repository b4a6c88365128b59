// What the program answers to a text: its listing, or one line with its refusal.
#![tactic(auto)]

ghost use Rattle.std.specs.Prelude.{◌≡◌, length};
ghost use Rattle.rows.specs.Rows.{tables};
ghost use Rattle.rows.specs.Reading.{rows_in};
ghost use Rattle.listing.specs.Listing.{listing_of, listed};
ghost use Rattle.compile.specs.Compiled.{over};
ghost use Rattle.reply.specs.Reply.{refusal_line, reply_to, shown_of, Shows};

use lines::Sink;

// The rows that the tables of a program hold: as many as a map may have.
pub const REGISTERS: usize = basics::REGISTER_LIMIT * basics::REGISTER_ROW_WIDTH;

pub const PATHS: usize = basics::REGISTER_LIMIT * basics::PATH_ROW_WIDTH;

pub const FIELDS: usize = basics::FIELD_LIMIT * basics::FIELD_ROW_WIDTH;

pub const LABELS: usize = basics::FIELD_LIMIT * basics::NAME_WIDTH;

// The line `refused=N at=P`.
pub fn write_refusal(out: &mut [u8], number: u64, at: u64) -> usize
    ensures { Shows out.old out.new (refusal_line number at) result }
{
    let room = out.len();
    let start = Sink { at: 0, full: false };
    let mut sink = lines::put_bytes(out, room, start, b"refused=");
    sink = lines::put_decimal(out, room, sink, number);
    sink = lines::put_bytes(out, room, sink, b" at=");
    sink = lines::put_decimal(out, room, sink, at);
    sink = lines::put_bytes(out, room, sink, b"\n");
    sink.at
}

// The listing of these rows, or the line of its refusal.
fn write_listing(
    registers: &[u64],
    paths: &[u8],
    fields: &[u64],
    labels: &[u8],
    out: &mut [u8],
) -> usize
    ensures { Shows out.old out.new (shown_of (listing_of (rows_in (tables registers.now paths.now fields.now labels.now))) (listed (length out.old) (tables registers.now paths.now fields.now labels.now))) result }
{
    match listing::list(registers, paths, fields, labels, out) {
        Ok(count) => count,
        Err(rule) => write_refusal(out, rule.number() as u64, 0),
    }
}

// The answer to a text, at the start of the output; answers how many bytes it has.
pub fn reply(text: &[u8], out: &mut [u8]) -> usize
    ensures answer { result ≡ length (reply_to (length out.old) text.now) }
    ensures written { out.new ≡ over (reply_to (length out.old) text.now) out.old }
{
    let mut registers = [0u64; REGISTERS];
    let mut paths = [0u8; PATHS];
    let mut fields = [0u64; FIELDS];
    let mut labels = [0u8; LABELS];
    match compile::compile(text, &mut registers, &mut paths, &mut fields, &mut labels) {
        Ok(counts) => write_listing(
            &registers[..counts.registers * basics::REGISTER_ROW_WIDTH],
            &paths[..counts.registers * basics::PATH_ROW_WIDTH],
            &fields[..counts.fields * basics::FIELD_ROW_WIDTH],
            &labels[..counts.fields * basics::NAME_WIDTH],
            out,
        ),
        Err(refusal) => write_refusal(out, refusal.rule.number() as u64, refusal.at as u64),
    }
}
