// What the program prints: a line for each command of a list, in a lent output.
#![tactic(auto)]

ghost use Rattle.std.specs.Prelude.{◌≡◌, [], ◌∷◌, ◌<◌, ◌≤◌, length};
ghost use Rattle.rules.specs.Program.{digit, upper_hex, line, response_in, answer_line, lines, printed};
ghost use Rattle.rules.specs.Hex.{ascii};
ghost use Rattle.listing.specs.Text.{Shows};
ghost use Rattle.listing.specs.Line.{after, Leaves};

use rules::Session;

// The most bytes of a list.
const LONGEST: usize = 16384;

// The bytes of the room of a response.
const ROOM: usize = 1504;

// The length that leads a command.
const LENGTH: usize = 2;

// Status, a zero byte and OutLen.
const HEADER: usize = 4;

// A lent output, and the place past what is put in it.
#[derive(Drop)]
struct Output<'a> {
    bytes: &'a mut [u8],
    at: usize,
    ghost within: { at ≤ length bytes.now },
}

// A digit, 0-9 A-F. Digits are put by hand: as much as fits stands in the output (`Shows`), which Display does not promise.
#[tactic(auto, unfolding(rules::specs::Program::digit))]
fn digit(n: u8) -> u8
    requires { n < 16 }
    ensures { result ≡ digit n }
{
    match n {
        0..=9 => b'0' + n,
        _ => b'A' + (n - 10),
    }
}

impl Output<'_> {
    ghost use Rattle.listing.specs.Output.{Puts};

    // Puts a byte, if it fits.
    #[tactic(auto, using(crate::proofs::Texts::byte_fits, crate::proofs::Texts::byte_past))]
    fn put_byte(&mut self, byte: u8)
        ensures { Puts (byte ∷ []) self.old self.new }
    {
        if self.at < self.bytes.len() {
            self.bytes[self.at] = byte;
            self.at += 1;
        }
    }

    // Puts as much of a text as fits.
    #[tactic(auto, using(crate::proofs::Texts::text_put))]
    fn put_text(&mut self, text: &[u8])
        ensures { Puts text.now self.old self.new }
    {
        let n = (self.bytes.len() - self.at).min(text.len());
        primitives::put(self.bytes, self.at, &text[..n]);
        self.at += n;
    }

    // The two digits of a byte, and those of each of some bytes.
    fn put_pair(&mut self, byte: u8)
        ensures { Puts (upper_hex (byte ∷ [])) self.old self.new }
    {
        self.put_byte(digit(byte / 16));
        self.put_byte(digit(byte % 16));
    }

    fn put_hex(&mut self, bytes: &[u8])
        ensures { Puts (upper_hex bytes.now) self.old self.new }
    {
        for byte in bytes {
            self.put_pair(*byte);
        }
    }

    // The response at the front of a room.
    fn put_response(&mut self, room: &[u8])
        requires { 4 ≤ length room.now }
        ensures { Puts (upper_hex (response_in room.now)) self.old self.new }
    {
        let size = HEADER + primitives::big_endian_at(room, 2) as usize;
        self.put_hex(&room[..size.min(room.len())]);
    }

    // Carries out a command in a fresh room, and puts its line: outcome, a space, the response.
    fn put_line(&mut self, command: &[u8], store: &mut [u8], session: Session) -> Session
        ensures line { Puts (answer_line (after command.now store.old session)) self.old self.new }
        ensures left { Leaves (after command.now store.old session) store result }
    {
        let mut room = [0u8; ROOM];
        let answer = element::execute(command, store, session, &mut room);
        self.put_byte(digit(answer.outcome));
        self.put_byte(b' ');
        self.put_response(&room);
        self.put_byte(b'\n');
        answer.session
    }

    // The line for a length or a command cut short.
    fn put_cut(&mut self)
        ensures { Puts (line (ascii "cut")) self.old self.new }
    {
        self.put_text(b"cut\n");
    }

    // A line for each command, each on what the one before left; a length or command cut short ends the run.
    fn put_lines(&mut self, input: &[u8], store: &mut [u8], first: Session)
        ensures { Puts (lines (length input.now) input.now store.old first) self.old self.new }
    {
        let mut session = first;
        let mut at = 0;
        // The next place is read from the bytes.
        while at < input.len() {
            let left = input.len() - at;
            if left < LENGTH {
                return self.put_cut();
            }
            let size = primitives::big_endian_at(input, at) as usize;
            let from = at + LENGTH;
            if left - LENGTH < size {
                return self.put_cut();
            }
            let to = from + size;
            session = self.put_line(&input[from..to], store, session);
            at = to;
        }
    }
}

// Puts what the program prints for its input at the front of the output, as much as fits, and answers how many bytes that is.
#[tactic(auto, using(crate::proofs::Lines::shown, crate::proofs::Lines::long_printed, crate::proofs::Lines::lines_printed))]
pub fn print_all(input: &[u8], output: &mut [u8]) -> usize
    ensures { Shows (printed input.now) output result }
{
    let mut output = Output {
        bytes: output,
        at: 0,
    };
    if LONGEST < input.len() {
        output.put_text(b"too long\n");
        return output.at;
    }
    let mut store = [0u8; factory::STORE];
    let _ = factory::make_factory_store(&mut store);
    output.put_lines(input, &mut store, factory::fresh_session());
    output.at
}
