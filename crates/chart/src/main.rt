// Prints the chart of the record on standard input as a listing (SPECIFICATION.md, 14.1), or `refused` and the number.
#![tactic(auto)]

ghost use Rattle.std.specs.Prelude.{◌+◌, ◌<◌, ◌≤◌, ◌≡◌, length, min, IfOk};

use specification::{ChartCounts, Graph};
use std::io;
use text::Text;

// One byte more than a record may have: a longer input is refused by as many of its bytes.
const BUFFER: usize = 65536;

// How many numbers a word, an arrow and a bundle have.
const WORD: usize = 6;

const ARROW: usize = 5;

const BUNDLE: usize = 4;

const MOST: usize = 4096;

// No line but the first is longer, and that is no longer either than the text that may wait.
const LINE: usize = 38;

const WAITING: usize = 512;

// A count, or the number of an entry: none is larger than the most arrows.
fn short(n: usize) -> u16
    ensures { result ≡ min n 4096 }
{
    n.min(MOST) as u16
}

// ---- parts of a line, put behind the text that waits: that there is room for each is proved, so that none is left out

// The digit of a power of ten, if the number has it.
fn put_digit(out: &mut Text<WAITING>, n: u16, power: u16)
    requires { (out.old.used + 1 ≤ WAITING) × (0 < power) }
    ensures { out.new.used ≤ out.old.used + 1 }
{
    if power <= n {
        out.push_byte(b'0' + (n / power % 10) as u8);
    }
}

// A blank, and the number in decimal.
fn put_number(out: &mut Text<WAITING>, n: u16)
    requires { out.old.used + 6 ≤ WAITING }
    ensures { out.new.used ≤ out.old.used + 6 }
{
    out.push_byte(b' ');
    if 100 <= n {
        put_digit(out, n, 10000);
        put_digit(out, n, 1000);
        put_digit(out, n, 100);
    }
    put_digit(out, n, 10);
    out.push_byte(b'0' + (n % 10) as u8);
}

fn put_pair(out: &mut Text<WAITING>, first: u16, second: u16)
    requires { out.old.used + 12 ≤ WAITING }
    ensures { out.new.used ≤ out.old.used + 12 }
{
    put_number(out, first);
    put_number(out, second);
}

// A name, a blank and the number.
fn put_count(out: &mut Text<WAITING>, name: &[u8], n: u16)
    requires { out.old.used + length name.now + 6 ≤ WAITING }
    ensures { out.new.used ≤ out.old.used + length name.now + 6 }
{
    out.push(name);
    put_number(out, n);
}

// A letter and five numbers.
fn put_fields(out: &mut Text<WAITING>, letter: u8, numbers: [u16; 5])
    requires { out.old.used + 31 ≤ WAITING }
    ensures { out.new.used ≤ out.old.used + 31 }
{
    let [a, b, c, d, e] = numbers;
    out.push_byte(letter);
    put_pair(out, a, b);
    put_pair(out, c, d);
    put_number(out, e);
}

// How an arrow runs, by the number of its kind, with its bundle, or the column and row of its bend.
// A number for a kind: the list that the call fills has numbers (9.4).
#[derive(Clone, Copy)]
struct Course {
    kind: u16,
    value: u16,
    row: u16,
}

impl Course {
    fn put(self, out: &mut Text<WAITING>)
        requires { out.old.used + 14 ≤ WAITING }
        ensures { out.new.used ≤ out.old.used + 14 }
    {
        match self.kind {
            0 => {
                out.push(b" S");
            }
            1 => put_count(out, b" B", self.value),
            2 => {
                out.push(b" D");
            }
            _ => {
                out.push(b" K");
                put_pair(out, self.value, self.row);
            }
        }
    }
}

// ---- lines

// Each word's line, with its floor where the record has floors.
fn put_word(out: &mut Text<WAITING>, v: usize, word: &[u16; WORD], floored: bool)
    requires { out.old.used + 38 ≤ WAITING }
    ensures { out.new.used ≤ out.old.used + 38 }
{
    let [channel, position, column, row, _, floor] = *word;
    put_fields(out, b'w', [short(v), channel, position, column, row]);
    if floored {
        put_number(out, floor);
    }
    out.push_byte(b'\n');
}

// An arrow's line, with the words that it goes from and to.
fn put_arrow(out: &mut Text<WAITING>, arrow: &[u16; ARROW], ends: &[u8; 2])
    requires { out.old.used + 38 ≤ WAITING }
    ensures { out.new.used ≤ out.old.used + 38 }
{
    let [number, kind, value, row, mark] = *arrow;
    let [tail, head] = *ends;
    put_count(out, b"a", number);
    put_pair(out, tail as u16, head as u16);
    let course = Course { kind, value, row };
    course.put(out);
    out.push(if mark == 1 { b" i\n" } else { b" f\n" });
}

fn put_bundle(out: &mut Text<WAITING>, b: usize, bundle: &[u16; BUNDLE])
    requires { out.old.used + 38 ≤ WAITING }
    ensures { out.new.used ≤ out.old.used + 38 }
{
    let [channel, first, last, track] = *bundle;
    put_fields(out, b'b', [short(b), channel, first, last, track]);
    out.push_byte(b'\n');
}

fn put_counts(out: &mut Text<WAITING>, chart: &ChartCounts)
    requires { out.old.used + 78 ≤ WAITING }
    ensures { out.new.used ≤ out.old.used + 78 }
{
    out.push(b"chart");
    put_pair(out, short(chart.words), short(chart.arrows));
    put_count(out, b" rows", chart.rows as u16);
    put_count(out, b" lines", chart.lines as u16);
    put_count(out, b" firm", chart.firm);
    put_count(out, b" bundles", short(chart.bundles));
    put_count(out, b" width", chart.width);
    out.push_byte(b'\n');
}

// ---- lines that wait until there is no room for another: one call of the system writes many

#[derive(Drop)]
struct Output<'a, P> {
    rt: &'a P,
    text: Text<WAITING>,
}

impl<P: Print> Output<'_, P> {
    // Writes what waits, where less than a line's room is left. An error is the write's own.
    fn make_room(&mut self) -> io::Result<()>
        ensures { IfOk result (λ _. self.new.text.used + 38 ≤ WAITING) }
    {
        if self.text.room() < LINE {
            self.flush()?;
        }
        Ok(())
    }

    fn flush(&mut self) -> io::Result<()>
        ensures { IfOk result (λ _. self.new.text.used ≡ 0) }
    {
        self.rt.write_all(self.text.as_bytes())?;
        self.text.clear();
        Ok(())
    }
}

fn print_words<P: Print>(
    out: &mut Output<'_, P>,
    words: &[[u16; WORD]],
    floored: bool,
) -> io::Result<()> {
    for (v, word) in words.iter().enumerate() {
        out.make_room()?;
        put_word(&mut out.text, v, word, floored);
    }
    Ok(())
}

fn print_arrows<P: Print>(
    out: &mut Output<'_, P>,
    arrows: &[[u16; ARROW]],
    ends: &[[u8; 2]],
) -> io::Result<()> {
    for (arrow, ends) in arrows.iter().zip(ends) {
        out.make_room()?;
        put_arrow(&mut out.text, arrow, ends);
    }
    Ok(())
}

fn print_bundles<P: Print>(out: &mut Output<'_, P>, bundles: &[[u16; BUNDLE]]) -> io::Result<()> {
    for (b, bundle) in bundles.iter().enumerate() {
        out.make_room()?;
        put_bundle(&mut out.text, b, bundle);
    }
    Ok(())
}

// Prints the chart of a record that says this graph, or its refusal. It is drawn by the call that the theorems of `demands` on a record are
// about: every chart fits the lists, so that each count is itself the lesser.
fn print_chart<P: Print>(rt: &P, record: &[u8], graph: &Graph<'_>) -> io::Result<()> {
    let mut words = [0; 128 * WORD];
    let mut arrows = [0; 4096 * ARROW];
    let mut bundles = [0; 256 * BUNDLE];
    let chart = chart_numbers::of_record(record, &mut words, &mut arrows, &mut bundles);
    if chart.refusal != 0 {
        return println!(rt; "refused {}", chart.refusal);
    }
    let mut text = Text::new();
    put_counts(&mut text, &chart);
    let mut out = Output { rt, text };
    let (words, _) = words.as_chunks::<WORD>();
    let words = &words[..chart.words.min(words.len())];
    print_words(&mut out, words, graph.floors.is_some())?;
    let (arrows, _) = arrows.as_chunks::<ARROW>();
    let (ends, _) = graph.ends.as_chunks::<2>();
    print_arrows(&mut out, arrows, ends)?;
    let (bundles, _) = bundles.as_chunks::<BUNDLE>();
    let bundles = &bundles[..chart.bundles.min(bundles.len())];
    print_bundles(&mut out, bundles)?;
    out.flush()
}

fn main(rt: HostRuntime) -> io::Result<()> {
    let mut buffer = [0; BUFFER];
    let got = input::read_full(&mut rt.stdin(), &mut buffer)?;
    let record = &buffer[..got];
    match fields::graph_of(record) {
        Ok(graph) => print_chart(&rt, record, &graph),
        Err(refusal) => println!(rt; "refused {refusal}"),
    }
}
