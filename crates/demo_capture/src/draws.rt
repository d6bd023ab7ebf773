//! The draws of the demo, and the values of a record that follow from its draws.
ghost use Rattle.std.specs.Prelude.{◌≡◌, ◌<◌, ◌+◌, ◌/◌, ◌%◌, ◌^◌};
ghost use Rattle.demo_capture.specs.Draws.{next_number as next_number_of, number_after, draws_after};

const MULTIPLIER: u64 = 6_364_136_223_846_793_005;

const INCREMENT: u64 = 1_442_695_040_888_963_407;

/// The four draws of a record, in the order in which they are made.
#[derive(Clone, Copy)]
pub struct Draws {
    pub a: u32,
    pub b: u32,
    pub c: u32,
    pub d: u32,
}

/// The four draws after a number of the generator, and the number after them.
pub fn draw_four(number: u64) -> (Draws, u64)
    ensures draws { result.0 ≡ draws_after number }
    ensures behind { result.1 ≡ number_after 4 number }
{
    let first = next_number(number);
    let second = next_number(first);
    let third = next_number(second);
    let fourth = next_number(third);
    let draws = Draws {
        a: high_bits(first),
        b: high_bits(second),
        c: high_bits(third),
        d: high_bits(fourth),
    };
    (draws, fourth)
}

// The number after a number.
#[tactic(auto, using(crate::proofs::Drawing::wrapped_twice))]
fn next_number(number: u64) -> u64
    ensures { result ≡ next_number_of number }
{
    number.wrapping_mul(MULTIPLIER).wrapping_add(INCREMENT)
}

// The 31 high bits of a number.
fn high_bits(number: u64) -> u32
    ensures { result ≡ number / 2 ^ 33 }
{
    (number / 0x2_0000_0000) as u32
}

impl Draws {
    ghost use Rattle.demo_capture.specs.Draws.{source_port_of, destination_port_of, is_tcp as is_tcp_of, protocol_of, payload_len as payload_len_of, has_secret as has_secret_of, letter_at};

    /// The last two bytes of the source address: the first two are 10.0.
    pub fn source(self) -> (u8, u8)
        ensures net { result.0 ≡ self.a % 4 }
        ensures host { result.1 ≡ 1 + (self.a / 4) % 200 }
    {
        ((self.a % 4) as u8, (1 + self.a / 4 % 200) as u8)
    }

    /// The last byte of the destination address: the first three are 198.51.100.
    pub fn destination(self) -> u8
        ensures { result ≡ 1 + self.b % 8 }
    {
        (1 + self.b % 8) as u8
    }

    pub fn source_port(self) -> u16
        ensures { result ≡ source_port_of self }
    {
        (1024 + self.c % 64) as u16
    }

    pub fn destination_port(self) -> u16
        ensures { result ≡ destination_port_of self }
    {
        if self.b / 8 % 2 == 0 { 80 } else { 53 }
    }

    /// Is it TCP, and not UDP?
    pub fn is_tcp(self) -> bool
        ensures { result ≡ is_tcp_of self }
    {
        self.d % 2 == 0
    }

    /// The protocol's number in an IPv4 header.
    pub fn protocol(self) -> u8
        ensures { result ≡ protocol_of self }
    {
        if self.is_tcp() { 6 } else { 17 }
    }

    /// The length of the payload in bytes.
    pub fn payload_len(self) -> u16
        ensures value { result ≡ payload_len_of self }
        ensures short { result < 64 }
    {
        (self.d / 2 % 64) as u16
    }

    /// Does the payload begin with the word `secret`?
    pub fn has_secret(self) -> bool
        ensures { result ≡ has_secret_of self }
    {
        self.d / 128 % 4 == 0 && self.payload_len() >= 6
    }

    /// The letter at a place of the payload.
    pub fn letter(self, place: u16) -> u8
        ensures { result ≡ letter_at self place }
    {
        let beyond = (u64::from(self.c) + u64::from(place)) % 26;
        b'a' + beyond as u8
    }
}
