// The CRC-64 of a DLT 5 block, eight bytes at a time by tables.
#![tactic(auto)]

ghost use Rattle.std.specs.Prelude.{◌≡◌, ◌<◌, ◌∷◌, replicate};
ghost use Rattle.crc.specs.Crc.{crc, crc_byte, crc_more};
ghost use Rattle.crc.specs.Laws.{GoesOn, ClosedGivesZero, ZeroOnlyIfClosed, IsLinear};
ghost use Rattle.crc.specs.Laws.{ShowsAChangedBurst, ShowsAChangedByte};

mod tables;

// The CRC of the byte with so many zero bytes behind it. The eight tables stand in one list, which the proof computes
// whole; rows would say the same by two indices.
fn entry(zeros: usize, byte: u8) -> u64
    requires { zeros < 8 }
    ensures { result ≡ crc (byte ∷ replicate zeros 0) }
{
    tables::TABLES[256 * zeros + byte as usize]
}

// The register after one more byte.
fn after_byte(register: u64, byte: u8) -> u64
    ensures { result ≡ crc_byte register byte }
{
    (register << 8) ^ entry(0, (register >> 56) as u8 ^ byte)
}

// The register after eight more bytes. The CRC is linear, so each byte counts for itself: with the
// register exclusive-ored in, as if only zero bytes followed it.
fn after_eight(register: u64, bytes: [u8; 8]) -> u64
    ensures { result ≡ crc_more register bytes }
{
    let [b0, b1, b2, b3, b4, b5, b6, b7] = (register ^ u64::from_be_bytes(bytes)).to_be_bytes();
    let low = entry(3, b4) ^ (entry(2, b5) ^ (entry(1, b6) ^ entry(0, b7)));
    entry(7, b0) ^ (entry(6, b1) ^ (entry(5, b2) ^ (entry(4, b3) ^ low)))
}

// The register after the bytes that fill no eight.
fn after_rest(start: u64, rest: &[u8]) -> u64
    ensures { result ≡ crc_more start rest.now }
{
    let mut register = start;
    for byte in rest {
        register = after_byte(register, *byte);
    }
    register
}

// Goes on from the CRC of what came before: the CRC of both together.
pub fn crc64_more(start: u64, bytes: &[u8]) -> u64
    ensures { result ≡ crc_more start bytes.now }
{
    let (eights, rest) = bytes.as_chunks::<8>();
    let mut register = start;
    for eight in eights {
        register = after_eight(register, *eight);
    }
    after_rest(register, rest)
}

// The CRC-64 of the bytes.
pub fn crc64(bytes: &[u8]) -> u64
    ensures { result ≡ crc bytes.now }
{
    crc64_more(0, bytes)
}

// Does nothing: its contract states the laws that make the CRC worth storing.
pub fn crc64_is_lawful()
    ensures parts { GoesOn }
    ensures closed { ClosedGivesZero }
    ensures only { ZeroOnlyIfClosed }
    ensures linear { IsLinear }
    ensures bursts { ShowsAChangedBurst }
    ensures bytes { ShowsAChangedByte }
{}
