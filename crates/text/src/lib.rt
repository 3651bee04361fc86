// Text into a lent list, piece by piece, and the front of a list. A page is the list with the place that comes next; a
// method that puts a piece moves that place on, and what has no room is left out. Every public function takes every
// argument; numbers may be of any type that 64 bits hold.
#![tactic(auto, using(crate::proofs::PageLaws::puts_then))]

ghost use Rattle.std.specs.Prelude.{◌≡◌, ℕ, [], ◌∷◌, ◌<◌, take};
ghost use Rattle.refusals.specs.Numbers.{number};
ghost use Rattle.text_spec.specs.Lines.{decimal, number_line, numbers_text, sheet_line, event_list, trace_line};
ghost use Rattle.text_spec.specs.Sets.{members, set_words};
ghost use Rattle.text.specs.Pages.{Puts};
ghost use Rattle.text.specs.Shapes.{member_words};

use refusals::Refusal;

// A lent list that is written from the front, and the place that comes next.
#[derive(Drop)]
pub struct Page<'a> {
    pub list: &'a mut [u8],
    pub at: usize,
}

impl<'a> Page<'a> {
    // A page on which nothing stands.
    pub fn new(list: &'a mut [u8]) -> Page<'a>
        ensures { (result.at ≡ 0) × (result.list.now ≡ list.old) × (result.list.ghost_name ≡ list.entry.ghost_name) }
    {
        Page { list, at: 0 }
    }

    // ---- pieces

    // Puts a byte, if there is room.
    #[tactic(auto, using(text_spec::proofs::AddsLaws::byte_in, text_spec::proofs::AddsLaws::byte_out))]
    pub fn put_byte(&mut self, b: u8)
        ensures { Puts (b ∷ []) self.old self.new }
    {
        if self.at < self.list.len() {
            self.list[self.at] = b;
            self.at += 1;
        }
    }

    // Puts some words.
    #[tactic(auto, using(crate::proofs::PageLaws::bytes))]
    pub fn put(&mut self, words: &[u8])
        ensures { Puts words.now self.old self.new }
    {
        for b in words {
            self.put_byte(*b);
        }
    }

    // Puts the digits of a number.
    #[tactic(auto, using(crate::proofs::PageLaws::digits))]
    fn put_digits(&mut self, n: u64)
        ensures { Puts (decimal n) self.old self.new }
    {
        if n >= 10 {
            self.put_digits(n / 10);
        }
        self.put_byte(b'0' + (n % 10) as u8);
    }

    // Puts a number in base ten.
    pub fn put_number<N: Into<u64>>(&mut self, n: N)
        ensures { (k : ℕ) × N.converts n k × Puts (decimal k) self.old self.new }
    {
        self.put_digits(n.into());
    }

    // Puts the events of a list in order, a blank before each.
    #[tactic(auto, using(crate::proofs::PageLaws::events), unfolding(text_spec::specs::Lines::event_list))]
    pub fn put_events(&mut self, trace: &[u8])
        ensures { Puts (event_list trace.now) self.old self.new }
    {
        for event in trace {
            self.put(b" ");
            self.put_number(*event);
        }
    }

    // Puts event i with a blank before it, if it is in the set.
    #[tactic(auto, using(crate::proofs::PageLaws::pieces), unfolding(crate::specs::Shapes::member_words))]
    fn put_member(&mut self, set: u16, i: u8)
        requires { i < 16 }
        ensures { Puts (member_words set i) self.old self.new }
    {
        if events::contains(set, usize::from(i)) {
            self.put(b" ");
            self.put_number(i);
        }
    }

    // Puts the events of a set in order, a blank before each.
    #[tactic(auto, using(crate::proofs::Members::members_put), unfolding(text_spec::specs::Sets::members))]
    pub fn put_members(&mut self, set: u16)
        ensures { Puts (members set) self.old self.new }
    {
        for i in 0..16 {
            self.put_member(set, i);
        }
    }

    // Puts a set: its number, and its events between parentheses.
    #[tactic(auto, using(crate::proofs::PageLaws::puts_then), unfolding(text_spec::specs::Sets::set_words))]
    pub fn put_set(&mut self, set: u16)
        ensures { Puts (set_words set) self.old self.new }
    {
        self.put_number(set);
        self.put(b" (");
        self.put_members(set);
        self.put(b" )");
    }

    // ---- lines

    // Puts a line of some words and a number.
    #[tactic(auto, using(crate::proofs::PageLaws::puts_then), unfolding(text_spec::specs::Lines::number_line))]
    pub fn put_number_line<N: Into<u64>>(&mut self, words: &[u8], n: N)
        ensures { (k : ℕ) × N.converts n k × Puts (number_line words.now k) self.old self.new }
    {
        self.put(words);
        self.put_number(n);
        self.put(b"\n");
    }

    // Puts a line of some words and the number of a refusal.
    pub fn put_refusal_line(&mut self, words: &[u8], cause: Refusal)
        ensures { Puts (number_line words.now (number cause)) self.old self.new }
    {
        self.put_number_line(words, u8::from(cause));
    }

    // Puts two numbers with words before, between and after them.
    #[tactic(auto, using(crate::proofs::PageLaws::puts_then), unfolding(text_spec::specs::Lines::numbers_text))]
    pub fn put_numbers<X: Into<u64>, Y: Into<u64>>(
        &mut self,
        first: &[u8],
        x: X,
        between: &[u8],
        y: Y,
        last: &[u8],
    )
        ensures { (k : ℕ) × (l : ℕ) × X.converts x k × Y.converts y l
            × Puts (numbers_text first.now k between.now l last.now) self.old self.new }
    {
        self.put(first);
        self.put_number(x);
        self.put(between);
        self.put_number(y);
        self.put(last);
    }

    // Puts the line of an accepted sheet: whose it is, its nodes and its events.
    #[tactic(auto, unfolding(text_spec::specs::Lines::sheet_line))]
    pub fn put_sheet_line<N: Into<u64>, E: Into<u64>>(&mut self, who: &[u8], n: N, e: E)
        ensures { (k : ℕ) × (l : ℕ) × N.converts n k × E.converts e l
            × Puts (sheet_line who.now k l) self.old self.new }
    {
        self.put_numbers(who, n, b" nodes ", e, b" events\n");
    }

    // Puts the line of a trace.
    #[tactic(auto, using(crate::proofs::PageLaws::puts_then), unfolding(text_spec::specs::Lines::trace_line))]
    pub fn put_trace_line(&mut self, trace: &[u8])
        ensures { Puts (trace_line trace.now) self.old self.new }
    {
        self.put(b"trace");
        self.put_events(trace);
        self.put(b"\n");
    }
}

// ---- the front of a list

// The first n bytes of a list, or all where there are fewer.
pub fn front(bytes: &[u8], n: usize) -> &[u8]
    ensures { result.now ≡ take n bytes.now }
{
    &bytes[..n.min(bytes.len())]
}
