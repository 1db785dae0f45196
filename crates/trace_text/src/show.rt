ghost use Rattle.std.specs.Prelude.{◌≡◌, ◌+◌, ◌/◌, ◌≤◌, ◌++◌, IfSome, length, take, drop, decimal, codes, option_map};
ghost use Rattle.hex.specs.Hex.{decode_of, encode_lower};
ghost use Rattle.std.specs.Int.{w64, to_be_bytes};
ghost use Rattle.upiu_wire.specs.Upiu.{upiu_at};
ghost use Rattle.trace_text.specs.Written.{Puts};
ghost use Rattle.trace_text.specs.Shown.{named, byte_text, digit_text, command_text, cdb_text, pair_text, pairs_text};
ghost use Rattle.trace_text.specs.Shown.{regions_text, sense_of, fixed_text, hint_text, sense_text, kind_name};
ghost use Rattle.trace_text.specs.Shown.{moved_text, rest_text, upiu_text, shown_upiu, bytes_text, marked_digits};
ghost use Rattle.trace_text.specs.Shown.{decoded, is_response, shown_line, any_limits};
ghost use Rattle.upiu_wire.specs.Kind.{kind_of};
ghost use Rattle.hpb_cdb.specs.Read.{cdb_of};
ghost use Rattle.upiu_wire.specs.WireFault.{wire_fault_of};

use crate::writer::put;
use arrayvec::ArrayVec;
use hpb_cdb::{Cdb, CdbFault, Limits};
use hpb_sense::{FixedSense, Hint, Sense, read_sense};
use itoa::Buffer;
use upiu_wire::{Kind, UpiuView};

/// The bytes that are shown for a line at most: the line itself and its end.
pub const SHOWN_BYTES: usize = 131_201;

/// The bytes of the text of a UPIU at most.
const TEXT_BYTES: usize = 512;

/// The digits of the header of a UPIU.
const HEADER_DIGITS: usize = 64;

/// The text of a UPIU, as far as it is built.
pub(crate) type Text = ArrayVec<u8, TEXT_BYTES>;

/// Adds a text.
pub(crate) fn push(part: &[u8], text: &mut Text)
    requires { length text.old.items + length part.now ≤ 512 }
    ensures { text.new.items ≡ text.old.items ++ part.now }
{
    text.try_extend_from_slice(part).unwrap();
}

/// Adds a number, of at most 20 digits.
fn push_number(number: u64, text: &mut Text)
    requires { length text.old.items + 20 ≤ 512 }
    ensures text { text.new.items ≡ text.old.items ++ decimal number }
    ensures bound { length text.new.items ≤ length text.old.items + 20 }
{
    let mut buffer = Buffer::new();
    push(buffer.format(number).as_bytes(), text);
}

/// Adds a name and a number behind it.
fn push_named(name: &[u8], number: u64, text: &mut Text)
    requires { length text.old.items + length name.now + 20 ≤ 512 }
    ensures text { text.new.items ≡ text.old.items ++ named name.now number }
    ensures bound { length text.new.items ≤ length text.old.items + length name.now + 20 }
{
    push(name, text);
    push_number(number, text);
}

/// Adds a byte as two hex digits.
pub(crate) fn push_byte(byte: u8, text: &mut Text)
    requires { length text.old.items + 2 ≤ 512 }
    ensures text { text.new.items ≡ text.old.items ++ byte_text byte }
    ensures bound { length text.new.items ≡ length text.old.items + 2 }
{
    let mut digits = [0; 2];
    hex::encode_to_slice(&[byte], &mut digits).unwrap();
    push(&digits, text);
}

/// Adds a number below 16 as one hex digit.
pub(crate) fn push_digit(number: u8, text: &mut Text)
    requires { length text.old.items + 1 ≤ 512 }
    ensures text { text.new.items ≡ text.old.items ++ digit_text number }
    ensures bound { length text.new.items ≡ length text.old.items + 1 }
{
    let mut digits = [0; 2];
    hex::encode_to_slice(&[number], &mut digits).unwrap();
    push(&digits[1..], text);
}

/// Adds an entry as 16 hex digits.
fn push_entry(entry: u64, text: &mut Text)
    requires { length text.old.items + 16 ≤ 512 }
    ensures text { text.new.items ≡ text.old.items ++ encode_lower (to_be_bytes w64 entry) }
    ensures bound { length text.new.items ≡ length text.old.items + 16 }
{
    let mut digits = [0; 16];
    hex::encode_to_slice(&entry.to_be_bytes(), &mut digits).unwrap();
    push(&digits, text);
}

/// Adds a name, a first block and a number of blocks.
fn push_blocks(name: &[u8], lba: u32, n: u16, text: &mut Text)
    requires room { length text.old.items + 60 ≤ 512 }
    requires name { length name.now ≤ 16 }
    ensures text { text.new.items ≡ text.old.items ++ (named name.now lba ++ named (codes " n=") n) }
    ensures bound { length text.new.items ≤ length text.old.items + 60 }
{
    push_named(name, u64::from(lba), text);
    push_named(b" n=", u64::from(n), text);
}

/// Adds an HPB READ.
fn push_hpb_read(lba: u32, entry: u64, n: u8, id: u8, text: &mut Text)
    requires { length text.old.items + 120 ≤ 512 }
    ensures text { text.new.items ≡ text.old.items ++ command_text (Cdb.HpbRead lba entry n id) }
    ensures bound { length text.new.items ≤ length text.old.items + 120 }
{
    push_named(b" HPB_READ lba=", u64::from(lba), text);
    push(b" entry=", text);
    push_entry(entry, text);
    push_named(b" n=", u64::from(n), text);
    push_named(b" id=", u64::from(id), text);
}

/// Adds a command that brings a list of entries.
fn push_prefetch(lba: u32, id: u8, len: u16, text: &mut Text)
    requires { length text.old.items + 120 ≤ 512 }
    ensures text { text.new.items ≡ text.old.items ++ command_text (Cdb.Prefetch lba id len) }
    ensures bound { length text.new.items ≤ length text.old.items + 120 }
{
    push_named(b" PREFETCH lba=", u64::from(lba), text);
    push_named(b" id=", u64::from(id), text);
    push_named(b" len=", u64::from(len), text);
}

/// Adds a command that makes a region inactive.
fn push_inactive(region: u16, text: &mut Text)
    requires { length text.old.items + 120 ≤ 512 }
    ensures text { text.new.items ≡ text.old.items ++ command_text (Cdb.InactOne region) }
    ensures bound { length text.new.items ≤ length text.old.items + 120 }
{
    push_named(b" INACT region=", u64::from(region), text);
}

/// Adds a command.
fn push_command(command: Cdb, text: &mut Text)
    requires { length text.old.items + 120 ≤ 512 }
    ensures text { text.new.items ≡ text.old.items ++ command_text command }
    ensures bound { length text.new.items ≤ length text.old.items + 120 }
{
    match command {
        Cdb::TestReady => push(b" READY", text),
        Cdb::Read { lba, n } => push_blocks(b" READ lba=", lba, n, text),
        Cdb::Write { lba, n } => push_blocks(b" WRITE lba=", lba, n, text),
        Cdb::Capacity => push(b" CAPACITY", text),
        Cdb::Sync { lba, n } => push_blocks(b" SYNC lba=", lba, n, text),
        Cdb::HpbRead { lba, entry, n, id } => push_hpb_read(lba, entry, n, id, text),
        Cdb::ReadBuffer { region, sub, len } => {
            push_named(b" READ_BUFFER region=", u64::from(region), text);
            push_named(b" sub=", u64::from(sub), text);
            push_named(b" len=", u64::from(len), text);
        }
        Cdb::Prefetch { lba, id, len } => push_prefetch(lba, id, len, text),
        Cdb::InactOne { region } => push_inactive(region, text),
        Cdb::InactAll => push(b" INACT_ALL", text),
    }
}

/// Adds what a CDB says.
fn push_cdb(cdb: &[u8], text: &mut Text)
    requires bytes { length cdb.now ≡ 16 }
    requires room { length text.old.items + 120 ≤ 512 }
    ensures text { text.new.items ≡ text.old.items ++ cdb_text (cdb_of any_limits cdb.now) }
    ensures bound { length text.new.items ≤ length text.old.items + 120 }
{
    match hpb_cdb::parse(cdb, Limits::any()) {
        Ok(command) => push_command(command, text),
        Err(CdbFault::Opcode) => push(b" bad opcode", text),
        Err(CdbFault::Field | CdbFault::Range) => push(b" bad field", text),
    }
}

/// Adds a subregion.
fn push_pair(pair: (u16, u16), text: &mut Text)
    requires { length text.old.items + 41 ≤ 512 }
    ensures text { text.new.items ≡ text.old.items ++ pair_text pair }
    ensures bound { length text.new.items ≤ length text.old.items + 41 }
{
    push_number(u64::from(pair.0), text);
    push(b":", text);
    push_number(u64::from(pair.1), text);
}

/// Adds up to two subregions.
fn push_pairs(pairs: &[(u16, u16)], text: &mut Text)
    requires count { length pairs.now ≤ 2 }
    requires room { length text.old.items + 83 ≤ 512 }
    ensures text { text.new.items ≡ text.old.items ++ pairs_text pairs.now }
    ensures bound { length text.new.items ≤ length text.old.items + 83 }
{
    match pairs {
        [] => {}
        [only] => push_pair(*only, text),
        [first, second, ..] => {
            push_pair(*first, text);
            push(b",", text);
            push_pair(*second, text);
        }
    }
}

/// Adds up to two regions.
fn push_regions(regions: &[u16], text: &mut Text)
    requires count { length regions.now ≤ 2 }
    requires room { length text.old.items + 41 ≤ 512 }
    ensures text { text.new.items ≡ text.old.items ++ regions_text regions.now }
    ensures bound { length text.new.items ≤ length text.old.items + 41 }
{
    match regions {
        [] => {}
        [only] => push_number(u64::from(*only), text),
        [first, second, ..] => {
            push_number(u64::from(*first), text);
            push(b",", text);
            push_number(u64::from(*second), text);
        }
    }
}

/// Adds fixed sense.
fn push_fixed(sense: FixedSense, text: &mut Text)
    requires { length text.old.items + 14 ≤ 512 }
    ensures text { text.new.items ≡ text.old.items ++ fixed_text sense }
    ensures bound { length text.new.items ≤ length text.old.items + 14 }
{
    push(b" sense=", text);
    push_digit(sense.key, text);
    push(b"/", text);
    push_byte(sense.asc, text);
    push(b"/", text);
    push_byte(sense.ascq, text);
}

/// Adds a hint.
fn push_hint(hint: &Hint, text: &mut Text)
    requires { length text.old.items + 200 ≤ 512 }
    ensures text { text.new.items ≡ text.old.items ++ hint_text hint.now }
    ensures bound { length text.new.items ≤ length text.old.items + 200 }
{
    push_named(b" hint op=", u64::from(hint.op), text);
    push_named(b" lun=", u64::from(hint.lun), text);
    push(b" act=", text);
    push_pairs(hint.active.as_slice(), text);
    push(b" inact=", text);
    push_regions(hint.inactive.as_slice(), text);
}

/// The sense that a segment is, or nothing where it is cut.
fn parse_sense(segment: &[u8]) -> Option<Sense>
    ensures { result ≡ sense_of segment.now }
{
    read_sense(segment)
}

/// Adds what the segment of a RESPONSE says.
fn push_sense(segment: &[u8], text: &mut Text)
    requires { length text.old.items + 200 ≤ 512 }
    ensures text { text.new.items ≡ text.old.items ++ sense_text (sense_of segment.now) }
    ensures bound { length text.new.items ≤ length text.old.items + 200 }
{
    match parse_sense(segment) {
        None => push(b" bad", text),
        Some(Sense::Empty) => {}
        Some(Sense::Fixed(sense)) => push_fixed(sense, text),
        Some(Sense::Hint(hint)) => push_hint(&hint, text),
        Some(Sense::Other) => push(b" other", text),
    }
}

/// Adds the name of a kind.
fn push_kind(kind: Kind, text: &mut Text)
    requires { length text.old.items + 14 ≤ 512 }
    ensures text { text.new.items ≡ text.old.items ++ kind_name kind }
    ensures bound { length text.new.items ≤ length text.old.items + 14 }
{
    match kind {
        Kind::NopOut => push(b"NOP_OUT", text),
        Kind::Command => push(b"COMMAND", text),
        Kind::DataOut => push(b"DATA_OUT", text),
        Kind::ManageRequest => push(b"TM_REQUEST", text),
        Kind::QueryRequest => push(b"QUERY_REQUEST", text),
        Kind::NopIn => push(b"NOP_IN", text),
        Kind::Response => push(b"RESPONSE", text),
        Kind::DataIn => push(b"DATA_IN", text),
        Kind::ManageResponse => push(b"TM_RESPONSE", text),
        Kind::ReadyToTransfer => push(b"RTT", text),
        Kind::QueryResponse => push(b"QUERY_RESPONSE", text),
        Kind::Reject => push(b"REJECT", text),
    }
}

/// Adds which bytes a UPIU is about.
fn push_moved(view: &UpiuView, text: &mut Text)
    requires { length text.old.items + 60 ≤ 512 }
    ensures text { text.new.items ≡ text.old.items ++ moved_text (upiu_at view.now) }
    ensures bound { length text.new.items ≤ length text.old.items + 60 }
{
    push_named(b" off=", u64::from(view.offset()), text);
    push_named(b" n=", u64::from(view.count()), text);
}

/// Adds what a RESPONSE says behind its tag.
fn push_response(view: &UpiuView, text: &mut Text)
    requires { length text.old.items + 240 ≤ 512 }
    ensures text { text.new.items ≡ text.old.items ++ rest_text Kind.Response (upiu_at view.now) }
    ensures bound { length text.new.items ≤ length text.old.items + 240 }
{
    push(b" status=", text);
    push_byte(view.status(), text);
    push_named(b" resid=", u64::from(view.residual()), text);
    push_sense(view.segment(), text);
}

/// Adds what a UPIU says behind its tag.
fn push_rest(view: &UpiuView, text: &mut Text)
    requires { length text.old.items + 240 ≤ 512 }
    ensures text { text.new.items ≡ text.old.items ++ rest_text (upiu_at view.now).kind (upiu_at view.now) }
    ensures bound { length text.new.items ≤ length text.old.items + 240 }
{
    match view.kind() {
        Kind::Command => {
            push_named(b" exp=", u64::from(view.expected()), text);
            push_cdb(view.cdb(), text);
        }
        Kind::DataOut | Kind::DataIn | Kind::ReadyToTransfer => push_moved(view, text),
        Kind::Response => push_response(view, text),
        Kind::Reject => push_named(b" reason=", u64::from(view.reason()), text),
        _ => {}
    }
}

/// Adds what a UPIU says.
fn push_view(view: &UpiuView, text: &mut Text)
    requires { length text.old.items + 320 ≤ 512 }
    ensures text { text.new.items ≡ text.old.items ++ upiu_text (upiu_at view.now) }
    ensures bound { length text.new.items ≤ length text.old.items + 320 }
{
    push_kind(view.kind(), text);
    push_named(b" lun=", u64::from(view.lun()), text);
    push_named(b" tag=", u64::from(view.tag()), text);
    push_rest(view, text);
}

/// Adds what bytes say, or why they are no UPIU.
fn push_bytes(bytes: &[u8], text: &mut Text)
    requires { length text.old.items + 320 ≤ 512 }
    ensures text { text.new.items ≡ text.old.items ++ bytes_text (wire_fault_of bytes.now) bytes.now }
    ensures bound { length text.new.items ≤ length text.old.items + 320 }
{
    match UpiuView::parse(bytes) {
        Ok(view) => push_view(&view, text),
        Err(fault) => push_named(b"BAD ", u64::from(fault.number()), text),
    }
}

/// Writes the line that is shown for the bytes of a UPIU to the front of `out`, and answers how many bytes it has.
fn put_shown_upiu(bytes: &[u8], out: &mut [u8]) -> usize
    requires { 131201 ≤ length out.old }
    ensures written { Puts out.old out.new 0 result (shown_upiu bytes.now) }
    ensures bound { result ≤ 512 }
{
    let mut text = Text::new();
    push_bytes(bytes, &mut text);
    push(b"\n", &mut text);
    put(text.as_slice(), 0, out)
}

/// Writes a line and its end to the front of `out`, and answers how many bytes that is.
fn put_line(line: &[u8], out: &mut [u8]) -> usize
    requires { length line.now + 1 ≤ length out.old }
    ensures { Puts out.old out.new 0 result (line.now ++ codes "\n") }
{
    let end = put(line, 0, out);
    put(b"\n", end, out)
}

/// The hex digits of a line that a UPIU stands in, behind its mark.
fn marked_digits(line: &[u8]) -> Option<&[u8]>
    ensures digits { option_map (λ digits. digits.now) result ≡ marked_digits line.now }
    ensures short { IfSome result (λ digits. length digits.now ≤ length line.now) }
{
    if let Some(digits) = line.strip_prefix(b"U ") {
        return Some(digits);
    }
    if let Some(digits) = line.strip_prefix(b"> ") {
        return Some(digits);
    }
    line.strip_prefix(b"< ")
}

/// Writes the bytes of hex text to the front of the room, and answers how many.
fn decode(digits: &[u8], room: &mut [u8]) -> Option<usize>
    requires { length digits.now / 2 ≤ length room.old }
    ensures bytes { option_map (λ count. take count room.new) result ≡ decoded (decode_of digits.now) }
    ensures short { IfSome result (λ count. count ≤ length room.old) }
    ensures half { IfSome result (λ count. count ≡ length digits.now / 2) }
{
    let count = digits.len() / 2;
    match hex_lanes::decode_to_slice(digits, &mut room[..count]) {
        Ok(()) => Some(count),
        Err(_) => None,
    }
}

/// Whether a UPIU with this first byte is a RESPONSE.
fn is_response(code: u8) -> bool
    ensures { result ≡ is_response (kind_of code) }
{
    matches!(Kind::from_code(code), Some(Kind::Response))
}

/// Answers how many bytes hex text has, and writes those that are shown to the front of the room: of a UPIU that is no
/// RESPONSE its header alone.
fn read_shown(digits: &[u8], room: &mut [u8]) -> Option<usize>
    requires { length digits.now / 2 ≤ length room.old }
    ensures shown { option_map (λ count. shown_upiu (take count room.new)) result
        ≡ option_map shown_upiu (decoded (decode_of digits.now)) }
    ensures short { IfSome result (λ count. count ≤ length room.old) }
{
    if digits.len() < HEADER_DIGITS || digits.len() % 2 != 0 {
        return decode(digits, room);
    }
    let (header, rest) = digits.split_at(HEADER_DIGITS);
    if decode(header, room).is_none() {
        return None;
    }
    if is_response(room[0]) {
        return decode(digits, room);
    }
    if !hex_lanes::are_digits(rest) {
        return None;
    }
    Some(digits.len() / 2)
}

/// Writes what is shown of a line of a transcript, with its end, to the front of `out`, and answers how many bytes it
/// has. The line comes without its end. For one that begins with `U `, `> ` or `< ` this is a line about the UPIU
/// whose hex digits follow, and there is nothing where they are odd in number or one is no hex digit. Any other line
/// is copied. The room is overwritten.
pub fn put_shown(line: &[u8], room: &mut [u8], out: &mut [u8]) -> Option<usize>
    requires line { length line.now ≤ 131200 }
    requires room { 65600 ≤ length room.old }
    requires out { 131201 ≤ length out.old }
    ensures count { result ≡ option_map length (shown_line line.now) }
    ensures written { IfSome (shown_line line.now) (λ text. out.new ≡ text ++ drop (length text) out.old) }
    ensures bound { IfSome result (λ count. count ≤ 131201) }
{
    match marked_digits(line) {
        None => Some(put_line(line, out)),
        Some(digits) => {
            let count = read_shown(digits, room)?;
            Some(put_shown_upiu(&room[..count], out))
        }
    }
}
