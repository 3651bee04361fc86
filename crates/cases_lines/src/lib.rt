// The lines that the case programs read, and what they all write. A line is a name, a colon, and numbers; it is read
// byte by byte: up to the colon a byte belongs to the name; after it a byte from `0` to `9` is a digit, one below `0`
// ends a number, and any other only begins one. The name of a case is written as it is read. And what is told of a list
// of bytes: its front, how many places are alike, a check number.
#![tactic(auto)]

ghost use Rattle.std.specs.List.{FoldsTo};
ghost use Rattle.std.specs.Prelude.{◌≡◌, not, ◌&&◌, ◌≤◌, eqb, length};
ghost use Rattle.cases_lines.specs.Lines.{new_line, with_digit, with_number, line_after, number_at, small_of};
ghost use Rattle.cases_lines.specs.Lines.{check_with, check_up_to, ended};

// The number of standard output.
const STDOUT_FILENO: i32 = 1;

// ---- writing

// Writes a text.
pub fn say(text: &[u8]) {
    io::write_all(STDOUT_FILENO, text);
}

// Writes a blank and a count.
pub fn say_count(n: usize) {
    say(b" ");
    io::print_decimal(STDOUT_FILENO, n as u64);
}

// Writes a blank and a number.
pub fn say_number(x: u16) {
    say_count(usize::from(x));
}

// Writes a refusal.
pub fn say_denied(number: u8) {
    say(b" denied");
    say_number(u16::from(number));
}

// ---- a list of bytes

// Writes what the first n places of a list hold, or all.
pub fn say_front(list: &[u8], n: usize) {
    for x in &list[..n.min(list.len())] {
        say_number(u16::from(*x));
    }
}

// 1 for equal bytes, 0 for others.
pub fn alike(x: u8, y: u8) -> usize
    ensures { result ≤ 1 }
{
    usize::from(x == y)
}

// A check number with a number more.
#[tactic(auto, unfolding(crate::specs::Lines::check_with))]
pub fn check_with(check: usize, x: u16) -> usize
    ensures { result ≡ check_with check x }
{
    (check % 65521 * 31 + usize::from(x)) % 65521
}

// A check number with all places of a list more.
#[tactic(auto, unfolding(crate::specs::Lines::check_up_to))]
pub fn check_of(list: &[u8], mut check: usize) -> usize
    ensures { result ≡ check_up_to list.now check (length list.now) }
{
    for x in list {
        check = check_with(check, u16::from(*x));
    }
    check
}

// ---- a line

// A line so far: whether its name has ended, whether a number has begun, that number, how many came before it, and
// these.
#[derive(Clone, Copy)]
pub struct Line {
    pub named: bool,
    pub begun: bool,
    pub x: u16,
    pub count: usize,
    pub numbers: [u16; 64],
}

// A line of which nothing has come.
#[tactic(auto, unfolding(crate::specs::Lines::new_line))]
pub fn new_line() -> Line
    ensures { result ≡ new_line }
{
    Line {
        named: false,
        begun: false,
        x: 0,
        count: 0,
        numbers: [0; 64],
    }
}

// The line with a digit more, if it is one; a digit that would make the number 65,536 or more is left out.
#[tactic(auto, unfolding(crate::specs::Lines::with_digit))]
fn with_digit(mut line: Line, d: u8) -> Line
    ensures { result ≡ with_digit line d }
{
    line.begun = true;
    let x = u32::from(line.x) * 10 + u32::from(d);
    if d < 10 && x < 65536 {
        line.x = x as u16;
    }
    line
}

// The line with its number at an end: it is kept, where one has begun and there is room.
#[tactic(auto, unfolding(crate::specs::Lines::with_number))]
fn with_number(mut line: Line) -> Line
    ensures { result ≡ with_number line }
{
    if line.begun && line.count < 64 {
        line.numbers[line.count] = line.x;
        line.count += 1;
    }
    line.begun = false;
    line.x = 0;
    line
}

// The line after one byte more.
#[tactic(auto, unfolding(crate::specs::Lines::line_after))]
fn after(mut line: Line, b: u8) -> Line
    ensures { result ≡ line_after line b }
{
    if !line.named {
        line.named = b == b':';
        return line;
    }
    if b < b'0' {
        return with_number(line);
    }
    with_digit(line, b - b'0')
}

// The line after one byte more; a byte of its name is written.
pub fn heard(line: Line, b: u8) -> Line
    ensures { result ≡ line_after line b }
{
    if !line.named {
        say(&[b]);
    }
    after(line, b)
}

// Whether a byte ends a line: a newline after its name.
pub fn is_end(line: Line, b: u8) -> bool
    ensures { result ≡ (line.named && eqb b 10) }
{
    line.named && b == b'\n'
}

// Number i of a line, 0 past its end.
#[tactic(auto, unfolding(crate::specs::Lines::number_at))]
pub fn number(line: Line, i: usize) -> u16
    ensures { result ≡ number_at line i }
{
    if i < 64 { line.numbers[i] } else { 0 }
}

// Number i of a line as a byte, 255 for one above.
#[tactic(auto, unfolding(crate::specs::Lines::small_of))]
pub fn small(line: Line, i: usize) -> u8
    ensures { result ≡ small_of (number_at line i) }
{
    u8::try_from(number(line, i)).unwrap_or(255)
}

// Number i of a line as a yes or no.
pub fn flag(line: Line, i: usize) -> bool
    ensures { result ≡ not (eqb (number_at line i) 0) }
{
    number(line, i) != 0
}

// ---- standard input

// Answers every line that ends among some bytes.
pub fn answer_lines<F: FnMut(Line)>(cases: &[u8], mut answer: F)
    requires { F.IsAlwaysCallable answer }
    ensures { (last : F) × FoldsTo (λ p x q. F.step p x tt q) answer (ended new_line cases.now) last }
{
    let mut line = new_line();
    let mut rest = cases;
    while let Some((b, tail)) = rest.split_first() {
        let heard = heard(line, *b);
        if is_end(line, *b) {
            answer(heard);
            line = new_line();
        } else {
            line = heard;
        }
        rest = tail;
    }
}
