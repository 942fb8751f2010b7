// The name of a series as the table of indices has it (§ 17): without its outer blanks, and quoted where it must be.
#![tactic(auto)]

ghost use Rattle.std.specs.Prelude.{◌≡◌, ◌*◌, ◌≤◌, length};
ghost use Rattle.base_print.specs.Buffer.{Puts, Prints};
ghost use Rattle.spec_tucson.specs.Line.{name_columns};
ghost use Rattle.spec_table.specs.RingLines.{holds_quoted, doubled, quoted_name};
ghost use Rattle.table_name.specs.Machine.{name_limit, doubled_byte, StartTold, DoubledAsks, NameAsks, NameTold};

// The most bytes that a name has in the table.
pub const NAME_LIMIT: usize = 18;

// The index of the first byte that is no blank.
fn name_start(name: &[u8]) -> usize
    ensures { StartTold name.now result }
{
    name.iter()
        .position(|byte| *byte != b' ')
        .unwrap_or(name.len())
}

// Whether there is a comma or a quotation mark.
fn holds_quoted(bytes: &[u8]) -> bool
    ensures { result ≡ holds_quoted bytes.now }
{
    bytes.iter().any(|b| *b == b',' || *b == b'"')
}

// One byte, a quotation mark twice.
fn put_doubled_byte(out: &mut [u8], at: usize, byte: u8) -> usize
    requires { at ≤ 4096 }
    ensures { Puts 2 at (doubled_byte byte) out.old out.new result }
{
    if byte == b'"' {
        let next = base_print::put(out, at, byte);
        return base_print::put(out, next, byte);
    }
    base_print::put(out, at, byte)
}

// The bytes, each quotation mark twice.
fn put_doubled(out: &mut [u8], at: usize, bytes: &[u8]) -> usize
    requires { DoubledAsks at bytes.now }
    ensures { Puts (2 * length bytes.now) at (doubled bytes.now) out.old out.new result }
{
    let mut next = at;
    for byte in bytes {
        next = put_doubled_byte(out, next, *byte);
    }
    next
}

// A name without outer blanks as the table has it, from the buffer's start on.
fn put_quoted(out: &mut [u8], bytes: &[u8]) -> usize
    requires { length bytes.now ≤ name_columns }
    ensures { Prints name_limit (quoted_name bytes.now) out.old out.new result }
{
    if !holds_quoted(bytes) {
        return base_print::put_text(out, 0, bytes);
    }
    let a = base_print::put(out, 0, b'"');
    let b = put_doubled(out, a, bytes);
    base_print::put(out, b, b'"')
}

// The name of eight bytes as the table has it, at the front of the buffer, and how many bytes it has there.
pub fn put_name(out: &mut [u8], name: &[u8]) -> usize
    requires { NameAsks out.old name.now }
    ensures { NameTold name.now out.new result }
{
    let start = name_start(name);
    let rest = &name[start..];
    let left = tucson_columns::trim_blanks(rest, rest.len());
    put_quoted(out, &rest[..left])
}
