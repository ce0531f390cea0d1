//! How fast a text is cut into tokens.
use lt_lex::{Lexed, Lexer, TokenKind};
use std::alloc::{AllocError, Global};
use std::io;
use std::rt::Clock;
use std::time::Instant;

/// Names, brackets, comments and white space as they stand in theories, of which a text is made.
const LINES: &[u8] = b"# the image of a relation under two functions, by cases on the first\n\
const rel_fun : (fun (fun 'a (fun 'c bool)) (fun (fun 'b (fun 'd bool)) (fun (fun 'a 'b) (fun (fun 'c 'd) bool))));\n\
\n\
axiom rel_fun_app : (all[(fun 'a (fun 'c bool))] (\\R (fun 'a (fun 'c bool)) (all[(fun 'b (fun 'd bool))]\n\
    (\\S (fun 'b (fun 'd bool)) (imp (rel_fun['a 'c 'b 'd] %R %S %f %g) (imp (%R %x %y) (%S (%f %x) (%g %y))))))));\n\
law rel_fun_app rel_fun_app;  # registered\n\
def left_total := (\\relation (fun 'a (fun 'b bool)) (all['a] (\\x 'a (ex['b] (\\y 'b (%relation %x %y))))));\n\
lemma id_apply : (all['a] (\\x 'a (eq['a] (id['a] %x) %x))) {\n\
\tbeta (id['a] ($x 'a));\n\
\tallI x 'a 1;\n\
};\n";

/// A text of so many million bytes, or as near below as whole lines allow.
fn make_text(alloc: Global, megabytes: usize) -> Result<Vec<u8>, AllocError> {
    let size = megabytes.saturating_mul(1_000_000);
    let mut text = Vec::with_capacity(alloc, size)?;
    for _ in 0..size / LINES.len() {
        text.extend_from_slice(LINES)?;
    }
    Ok(text)
}

/// What was read of a text: how many tokens, how many of them names, the bytes of all of them, and what stands behind them.
#[derive(Drop)]
struct Counts {
    tokens: u64,
    names: u64,
    bytes: usize,
    ending: Lexed,
}

fn count_tokens(text: &[u8]) -> Counts {
    let mut lexer = Lexer::new(text);
    let mut tokens: u64 = 0;
    let mut names: u64 = 0;
    let mut bytes: usize = 0;
    'tokens: loop {
        match lexer.next_token() {
            Lexed::Token(token) => {
                tokens = tokens.wrapping_add(1);
                names = names.wrapping_add(u64::from(token.kind == TokenKind::Name));
                bytes = bytes.wrapping_add(token.to.wrapping_sub(token.from));
            }
            ending => {
                return Counts {
                    tokens,
                    names,
                    bytes,
                    ending,
                };
            }
        }
    }
}

/// The tokens of one block of lines.
pub fn small(rt: &impl Print) -> io::Result<()> {
    tell(rt, LINES.len(), &count_tokens(LINES))
}

/// The words are the size in millions of bytes, by default 200, and how often the text is read, by default once.
pub fn run<R: Print + Clock + Alloc<A = Global>>(rt: &R, words: &[String]) -> io::Result<()> {
    let megabytes = number_at(words, 0, 200);
    let rounds = number_at(words, 1, 1);
    let text = make_text(rt.alloc(), megabytes)?;
    for _ in 0..rounds {
        let start = Instant::now(rt)?;
        let counts = count_tokens(&text);
        let micros = start.elapsed(rt)?.as_micros().max(1);
        tell(rt, text.len(), &counts)?;
        println!(rt; "lex: {micros} us, {} MB/s", text.len() as u128 / micros)?;
    }
    Ok(())
}

fn tell(rt: &impl Print, size: usize, counts: &Counts) -> io::Result<()> {
    let Counts {
        tokens,
        names,
        bytes,
        ending,
    } = counts;
    println!(rt; "lex: {size} bytes, {tokens} tokens of {bytes} bytes, {names} names, {ending:?}")
}

fn number_at(words: &[String], at: usize, otherwise: usize) -> usize {
    match words.get(at) {
        Some(word) => word.as_str().parse::<usize>().unwrap_or(otherwise),
        None => otherwise,
    }
}
