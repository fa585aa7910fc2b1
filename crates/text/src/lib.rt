// Text on a page that is lent: words, numbers in decimal, and lines of them, printed one after another. Each method asks for
// room for exactly what it prints, moves the page's place past it, and changes nothing else. proofs/ has one text after another
// and a row of texts as one lemma each, and that a number is read back from its digits. It uses the kit's `io` for the digits.
#![tactic(auto)]

ghost use Rattle.text.specs.Decimal.{decimal};
ghost use Rattle.text.specs.Texts.{fields, line};
ghost use Rattle.text.specs.Page.{RoomFor, PrintedOn};

// Lent bytes, and the place up to which they are written.
#[derive(Drop)]
pub struct Page<'a> {
    pub bytes: &'a mut [u8],
    pub at: usize,
}

impl Page<'_> {
    // The bytes of a word, at the page's place.
    pub fn print_word(&mut self, word: &[u8])
        requires { RoomFor word.now self.old }
        ensures { PrintedOn word.now self.old self.new }
    {
        let end = self.at + word.len();
        self.bytes[self.at..end].copy_from_slice(word);
        self.at = end;
    }

    // A number in decimal: the most that it can have is 20 digits.
    fn print_number(&mut self, x: u64)
        requires { RoomFor (decimal x) self.old }
        ensures { PrintedOn (decimal x) self.old self.new }
    {
        let mut digits = [0u8; 20];
        let count = io::decimal(x, &mut digits);
        self.print_word(&digits[..count]);
    }

    // A space and a number, for each number.
    pub fn print_fields(&mut self, numbers: &[u64])
        requires { RoomFor (fields numbers.now) self.old }
        ensures { PrintedOn (fields numbers.now) self.old self.new }
    {
        for x in numbers {
            self.print_word(b" ");
            self.print_number(*x);
        }
    }

    // A word, a field for each number, and a line feed.
    pub fn print_line(&mut self, first: &[u8], numbers: &[u64])
        requires { RoomFor (line first.now numbers.now) self.old }
        ensures { PrintedOn (line first.now numbers.now) self.old self.new }
    {
        self.print_word(first);
        self.print_fields(numbers);
        self.print_word(b"\n");
    }
}
