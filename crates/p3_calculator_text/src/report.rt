//! The text of a fault.
ghost use Rattle.std.specs.Prelude.{◌≡◌, ◌+◌, ◌≤◌, ◌++◌, length, take, drop, decimal};
ghost use Rattle.p3_calculator_text.specs.Faults.{fault_line};

use crate::faults::Fault;

/// The room for the longest line of a fault.
const ROOM: usize = 96;

/// The decimal digits of a number of 128 bits, at the end of `digits`. The answer is where they
/// begin.
fn write_digits(number: u128, digits: &mut [u8; 39]) -> usize
    ensures within { result ≤ 39 }
    ensures digits { drop result digits.new ≡ decimal number }
{
    let mut at = 39;
    let mut rest = number;
    'digits: loop {
        at -= 1;
        digits[at] = b'0' + (rest % 10) as u8;
        rest /= 10;
        if rest == 0 {
            return at;
        }
    }
}

/// The line of a fault in a buffer of its own, so that it takes no memory.
#[derive(Drop)]
pub struct FaultLine {
    bytes: [u8; ROOM],
    used: usize,
    ghost within: { used ≤ 96 },
    ghost full: { length bytes ≡ 96 },
}

impl FaultLine {
    /// The line of this fault at line `number`.
    pub fn new(number: u128, fault: Fault) -> Self
        ensures { take result.used result.bytes ≡ fault_line number fault }
    {
        let mut line = FaultLine {
            bytes: [0; ROOM],
            used: 0,
        };
        line.push(b"line ");
        line.push_number(number);
        line.push(b": fault ");
        line.push_number(fault.code() as u128);
        line.push(b"\n");
        line
    }

    /// The bytes of the line, with its byte 10.
    pub fn as_bytes(&self) -> &[u8]
        ensures { result.now ≡ take self.now.used self.now.bytes }
    {
        &self.bytes[..self.used]
    }

    fn push(&mut self, bytes: &[u8])
        requires { self.old.used + length bytes.now ≤ 96 }
        ensures used { self.new.used ≡ self.old.used + length bytes.now }
        ensures bytes { take self.new.used self.new.bytes ≡ take self.old.used self.old.bytes ++ bytes.now }
    {
        let end = self.used + bytes.len();
        self.bytes[self.used..end].copy_from_slice(bytes);
        self.used = end;
    }

    fn push_number(&mut self, number: u128)
        requires { self.old.used + 39 ≤ 96 }
        ensures used { self.new.used ≤ self.old.used + 39 }
        ensures bytes { take self.new.used self.new.bytes ≡ take self.old.used self.old.bytes ++ decimal number }
    {
        let mut digits = [0u8; 39];
        let start = write_digits(number, &mut digits);
        self.push(&digits[start..]);
    }
}
