#![tactic(auto)]
// Replies, and the words that the script ends with, are printed on a page. Each method that prints asks that the text fits: the script's page has room for
// all that an input can answer, so a refusal would never be seen.
ghost use Rattle.std.specs.Prelude.{◌≡◌, ◌∷◌, []};
ghost use Rattle.text.specs.Number.{decimal};
ghost use Rattle.text.specs.Line.{line_of, bad_line, too_long};
ghost use Rattle.text.specs.Printing.{ended};
ghost use Rattle.text_print.specs.Page.{HasRoom, Prints};

// A buffer, and how many bytes of it are printed. (Both, since `Put` says what stands before and behind what is printed.)
#[derive(Drop)]
pub struct Page<'a> {
    out: &'a mut [u8],
    at: usize,
}

impl<'a> Page<'a> {
    pub fn new(out: &'a mut [u8]) -> Page<'a>
        ensures same { result.out.ghost_name ≡ out.entry.ghost_name }
        ensures blank { result.out.now ≡ out.old }
        ensures start { result.at ≡ 0 }
    {
        Page { out, at: 0 }
    }

    pub fn len(&self) -> usize
        ensures { result ≡ self.now.at }
    {
        self.at
    }

    // A line of numbers: a reply, or a refused set-up.
    pub fn put_line(&mut self, numbers: &[u32])
        requires { HasRoom (line_of numbers.now) self.old }
        ensures { Prints (line_of numbers.now) self.old self.new }
    {
        let Some((last, others)) = numbers.split_last() else {
            return self.put_byte(b'\n');
        };
        for n in others {
            self.put_ended(*n, b' ');
        }
        self.put_ended(*last, b'\n');
    }

    pub fn put_bad_line(&mut self, n: u32)
        requires { HasRoom (bad_line n) self.old }
        ensures { Prints (bad_line n) self.old self.new }
    {
        self.put_bytes(b"bad line ");
        self.put_ended(n, b'\n');
    }

    #[tactic(auto, unfolding(text::specs::Line::too_long))]
    pub fn put_too_long(&mut self)
        requires { HasRoom too_long self.old }
        ensures { Prints too_long self.old self.new }
    {
        self.put_bytes(b"too long\n");
    }

    // A number and the byte after it.
    fn put_ended(&mut self, n: u32, end: u8)
        requires { HasRoom (ended n end) self.old }
        ensures { Prints (ended n end) self.old self.new }
    {
        self.put_number(n);
        self.put_byte(end);
    }

    // The digits of the tenth where that is not 0, and the last digit. By hand: std's `write!` answers a Result and promises nothing of an Err,
    // and here nothing fails.
    #[tactic(auto, using(crate::proofs::Digits::digits))]
    fn put_number(&mut self, n: u32)
        requires { HasRoom (decimal n) self.old }
        ensures { Prints (decimal n) self.old self.new }
    {
        if n < 10 {
            return self.put_byte(b'0' + n as u8);
        }
        self.put_number(n / 10);
        self.put_byte(b'0' + (n % 10) as u8);
    }

    fn put_bytes(&mut self, bytes: &[u8])
        requires { HasRoom bytes.now self.old }
        ensures { Prints bytes.now self.old self.new }
    {
        let end = self.at + bytes.len();
        self.out[self.at..end].copy_from_slice(bytes);
        self.at = end;
    }

    fn put_byte(&mut self, b: u8)
        requires { HasRoom (b ∷ []) self.old }
        ensures { Prints (b ∷ []) self.old self.new }
    {
        self.out[self.at] = b;
        self.at += 1;
    }
}
