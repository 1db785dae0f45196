//! Lines of calls of a device, and what each tells and sends, as words.
use super::*;

/// Adds the bytes of words: `z` is four bytes 00h, a byte with an `s` a block of it, `/` nothing, a number of two
/// digits its byte, any other number its four bytes, and any other word itself.
fn push_words(out: &mut Vec<u8>, words: &str) -> Result<(), Fail> {
    for word in words.split_ascii_whitespace() {
        let block = word.strip_suffix('s').unwrap_or("");
        if let Ok(byte) = u8::from_str_radix(block, 16) {
            out.extend_from_slice(&[byte; BLOCK_BYTES])?;
            continue;
        }
        match (u32::from_str_radix(word, 16), word) {
            (Ok(number), _) if word.len() == 2 => out.push((number % 256) as u8)?,
            (Ok(number), _) => out.extend_from_slice(&number.to_be_bytes())?,
            (Err(_), "z") => out.extend_from_slice(&[0; 4])?,
            (Err(_), "/") => {}
            (Err(_), _) => out.extend_from_slice(word.as_bytes())?,
        }
    }
    Ok(())
}

/// Adds what a step tells, and the UPIU that it sends.
fn tell(bench: &Bench, stepped: Stepped, told: &mut Vec<u8>) -> Result<(), Fail> {
    let word = match (stepped.idle, stepped.failed) {
        (true, _) => "idle",
        (false, None) => "",
        (false, Some(ChipOp::Read)) => "!read",
        (false, Some(ChipOp::Program)) => "!program",
        (false, Some(ChipOp::Erase)) => "!erase",
    };
    told.extend_from_slice(word.as_bytes())?;
    if let Some((lun, lba)) = stepped.moved {
        told.push(b'M')?;
        told.extend_from_slice(&u32::from(lun).to_be_bytes())?;
        told.extend_from_slice(&lba.to_be_bytes())?;
    }
    if stepped.sent {
        told.extend_from_slice(bench.upiu())?;
    }
    Ok(())
}

/// Steps a device until it waits, and adds what each step tells and sends.
pub fn drain(bench: &mut Bench, told: &mut Vec<u8>) -> Result<(), Fail> {
    for _step in 0..1000 {
        if bench.waits() != Waits::Step {
            return Ok(());
        }
        let stepped = bench.step();
        tell(bench, stepped, told)?;
    }
    Err(Fail::new("no end of the steps"))
}

/// Makes steps of the collector until one is idle, and adds a dot and what it tells for each.
fn collect(bench: &mut Bench, told: &mut Vec<u8>) -> Result<(), Fail> {
    for _step in 0..1000 {
        let stepped = bench.collect();
        told.push(b'.')?;
        tell(bench, stepped, told)?;
        if stepped.idle {
            return Ok(());
        }
    }
    Err(Fail::new("no end of the collector"))
}

/// Makes a whole write with tag 2, block by block, and adds what is told and sent. The words are the LBA and the number
/// of blocks, in decimal, and the block.
fn write(bench: &mut Bench, words: &str, told: &mut Vec<u8>) -> Result<(), Fail> {
    let mut words = words.split_ascii_whitespace();
    let lba = u8::from_str_radix(words.next().unwrap_or(""), 10)?;
    let n = u8::from_str_radix(words.next().unwrap_or(""), 10)?;
    let block = words.next().unwrap_or("").strip_suffix('s').unwrap_or("");
    let byte = u8::from_str_radix(block, 16)?;
    let mut is_refused = bench.command(2, 4096 * u32::from(n), transfer(0x2A, lba, n));
    drain(bench, told)?;
    for number in 0..n {
        is_refused = is_refused || bench.data(number, byte);
        drain(bench, told)?;
    }
    if is_refused {
        return Err(Fail::new("refused"));
    }
    Ok(())
}

/// Hands TEST UNIT READY with each tag below 32 to the device, and adds what is sent.
fn fill(bench: &mut Bench, told: &mut Vec<u8>) -> Result<(), Fail> {
    for tag in 0..32 {
        if bench.command(tag, 0, [0; 16]) {
            told.extend_from_slice(bench.upiu())?;
        }
    }
    Ok(())
}

/// The byte of which a block consists, by a read with tag 5, which is to be answered by it and GOOD.
pub fn block(alloc: Global, bench: &mut Bench, cdb: [u8; 16]) -> Result<u8, Fail> {
    let is_refused = bench.command(5, 4096, cdb);
    let mut told = Vec::new(alloc);
    drain(bench, &mut told)?;
    let byte = told.get(32).copied().unwrap_or(0);
    let mut expected = Vec::new(alloc);
    push_words(&mut expected, "22000005 z 00001000 z 00001000 z z z")?;
    expected.extend_from_slice(&[byte; BLOCK_BYTES])?;
    push_words(&mut expected, "21000005 z z z z z z z")?;
    if is_refused || told != expected {
        return Err(Fail::new("no block"));
    }
    Ok(byte)
}

/// Adds the byte of each of 20 blocks.
fn push_blocks(alloc: Global, bench: &mut Bench, told: &mut Vec<u8>) -> Result<(), Fail> {
    for lba in 0..20 {
        told.push(block(alloc, bench, transfer(0x28, lba, 1))?)?;
    }
    Ok(())
}

/// Adds a word where a count isn't the one that it should be. The words are the counts, in decimal.
fn push_other_counts(bench: &Bench, words: &str, told: &mut Vec<u8>) -> Result<(), Fail> {
    let mut words = words.split_ascii_whitespace();
    for count in bench.counts() {
        if u64::from_str_radix(words.next().unwrap_or(""), 10)? != count {
            told.extend_from_slice(b"another count")?;
        }
    }
    Ok(())
}

/// Hands a UPIU of these words to the device, and adds what is sent at once.
fn send(alloc: Global, bench: &mut Bench, words: &str, told: &mut Vec<u8>) -> Result<(), Fail> {
    let mut bytes = Vec::new(alloc);
    push_words(&mut bytes, words)?;
    if bench.receive(&bytes) {
        told.extend_from_slice(bench.upiu())?;
    }
    Ok(())
}

/// Scans the chip, and adds the number of steps.
fn scan(bench: &mut Bench, told: &mut Vec<u8>) -> Result<(), Fail> {
    told.extend_from_slice(&bench.scan()?.to_be_bytes())?;
    Ok(())
}

/// Adds what the device waits for.
fn wait(bench: &Bench, told: &mut Vec<u8>) -> Result<(), Fail> {
    let word = match bench.waits() {
        Waits::Nothing => "nothing",
        Waits::Host => "host",
        Waits::Step => "step",
    };
    told.extend_from_slice(word.as_bytes())?;
    Ok(())
}

/// Makes the calls of a line, and adds what they tell and send: `U` hands a UPIU to the device, `W` makes a whole
/// write, `S` makes a step, `C` one of the collector, `D` steps until the device waits, `X` collects until nothing is
/// left to collect, `P` scans the chip and tells the number of steps, `R` resets the device, `N` hands it 32 commands,
/// `B` tells the byte of each block, `#` compares the counts, and `?` tells what the device waits for.
fn call(alloc: Global, bench: &mut Bench, line: &str, told: &mut Vec<u8>) -> Result<(), Fail> {
    let words = line.get(1..).unwrap_or("");
    match line.as_bytes().first().copied().unwrap_or(0) {
        b'U' => send(alloc, bench, words, told),
        b'W' => write(bench, words, told),
        b'S' => {
            let stepped = bench.step();
            tell(bench, stepped, told)
        }
        b'C' => {
            let stepped = bench.collect();
            tell(bench, stepped, told)
        }
        b'D' => drain(bench, told),
        b'X' => collect(bench, told),
        b'P' => scan(bench, told),
        b'R' => {
            bench.reset();
            Ok(())
        }
        b'N' => fill(bench, told),
        b'B' => push_blocks(alloc, bench, told),
        b'#' => push_other_counts(bench, words, told),
        b'?' => wait(bench, told),
        b'=' => Ok(()),
        _ => Err(Fail::new("no call")),
    }
}

/// Makes the calls of these lines and then of those. What each tells and sends stands behind `>`.
pub fn run(
    rt: &impl Abort,
    alloc: Global,
    bench: &mut Bench,
    lines: &str,
    more: &str,
) -> Result<(), Fail> {
    for line in lines.lines().chain(more.lines()) {
        let (calls, answer) = line.split_once(" > ").unwrap_or((line, ""));
        let mut told = Vec::new(alloc);
        let mut expected = Vec::new(alloc);
        call(alloc, bench, calls, &mut told)?;
        push_words(&mut expected, answer)?;
        assert!(rt; told == expected, "{line}");
    }
    Ok(())
}
