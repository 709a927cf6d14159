// The bytes that a run is made of.
ghost use Rattle.std.specs.Prelude.{◌≡◌, ◌≤◌, length};
ghost use Rattle.tokens.specs.Tokens.{member, run};

#[derive(Clone, Copy)]
pub enum Class {
    Space,
    Digit,
    WordByte,
}

impl Class {
    fn has(self, byte: u8) -> bool
        ensures { result ≡ member self byte }
    {
        match self {
            Class::Space => byte == b' ',
            Class::Digit => byte.is_ascii_digit(),
            Class::WordByte => byte.is_ascii_lowercase() || byte.is_ascii_digit() || byte == b'_',
        }
    }

    // How many of the first bytes are of the class.
    pub fn run(self, bytes: &[u8]) -> usize
        ensures value { result ≡ run self bytes.now }
        ensures within { result ≤ length bytes.now }
    {
        bytes.iter().take_while(|byte| self.has(**byte)).count()
    }
}
