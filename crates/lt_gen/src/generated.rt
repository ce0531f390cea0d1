//! The texts of the generator.
ghost use Rattle.std.specs.Prelude.{◌≡◌, ◌++◌, true, IfOk, OnOk, encode_utf8_all};
ghost use Rattle.std.specs.List.{flat_map, range_with_len};
ghost use Rattle.lt_syntax.specs.Signs.{are_ascii};
ghost use Rattle.lt_transport_definitions.specs.GeneratedTexts.{generated_text};
ghost use Rattle.lt_transport_definitions.specs.GeneratedTexts.{generated_transport};
ghost use Rattle.lt_transport_definitions.specs.GeneratedTexts.{inside_applications};
ghost use Rattle.lt_gen.specs.Repeats.{repeated};

use lt_hol::Memory;
use lt_syntax::Text;
use std::alloc::Global;

/// What stands before the transports: the header, the constant of the function relator with the
/// laws that transports ask for, two types, the constants of each, and three rules.
const BASE: &str = "\
theory 1;\n\
const rel_fun : (fun (fun 'a (fun 'c bool)) (fun (fun 'b (fun 'd bool)) (fun (fun 'a 'b) \
    (fun (fun 'c 'd) bool))));\n\
axiom rel_fun_app : (all[(fun 'a (fun 'c bool))] (\\x0 (fun 'a (fun 'c bool)) (all[(fun 'b \
    (fun 'd bool))] (\\x1 (fun 'b (fun 'd bool)) (all[(fun 'a 'b)] (\\x2 (fun 'a 'b) (all[(fun \
    'c 'd)] (\\x3 (fun 'c 'd) (all['a] (\\x4 'a (all['c] (\\x5 'c (imp (rel_fun['a 'c 'b 'd] %x0 \
    %x1 %x2 %x3) (imp (%x0 %x4 %x5) (%x1 (%x2 %x4) (%x3 %x5))))))))))))))));\n\
law rel_fun_app rel_fun_app;\n\
axiom rel_fun_abs : (all[(fun 'a (fun 'c bool))] (\\x0 (fun 'a (fun 'c bool)) (all[(fun 'b \
    (fun 'd bool))] (\\x1 (fun 'b (fun 'd bool)) (all[(fun 'a 'b)] (\\x2 (fun 'a 'b) (all[(fun \
    'c 'd)] (\\x3 (fun 'c 'd) (imp (all['a] (\\x4 'a (all['c] (\\x5 'c (imp (%x0 %x4 %x5) (%x1 \
    (%x2 %x4) (%x3 %x5))))))) (rel_fun['a 'c 'b 'd] %x0 %x1 %x2 %x3))))))))));\n\
law rel_fun_abs rel_fun_abs;\n\
axiom rel_fun_eq : (eq[(fun (fun 'a 'b) (fun (fun 'a 'b) bool))] (rel_fun['a 'a 'b 'b] \
    eq['a] eq['b]) eq[(fun 'a 'b)]);\n\
law rel_fun_eq rel_fun_eq;\n\
type u 0;\n\
type q 0;\n\
const r : (fun u (fun q bool));\n\
corr r;\n\
const a : u;\n\
const z : q;\n\
const f : (fun u u);\n\
const g : (fun q q);\n\
const p : (fun u bool);\n\
const s : (fun q bool);\n\
axiom az : (r a z);\n\
rule az;\n\
axiom fg : (rel_fun[u q u q] r r f g);\n\
rule fg;\n\
axiom ps : (rel_fun[u q bool bool] r eq[bool] p s);\n\
rule ps;\n\
";

/// The theory text of size n, which carries n statements across one after another: that of the
/// number k has k applications of a lifted function inside one another.
pub fn generate(alloc: Global, n: u32) -> Result<Vec<u8>, Memory>
    ensures { IfOk result (λ bytes. bytes.items ≡ encode_utf8_all (generated_text n)) }
{
    let mut text = Text::new(alloc);
    text.signs(BASE)?;
    add_transports(&mut text, n)?;
    Ok(text.finish().into_bytes())
}

/// Adds the first n transports.
fn add_transports(text: &mut Text, n: u32) -> Result<(), Memory>
    ensures { OnOk result (text.new
        ≡ text.old ++ flat_map generated_transport (range_with_len 1 n)) }
{
    let mut k = 0;
    'transports: while k < n {
        k += 1;
        add_transport(text, k)?;
    }
    Ok(())
}

/// Adds the transport with this number.
fn add_transport(text: &mut Text, k: u32) -> Result<(), Memory>
    ensures { OnOk result (text.new ≡ text.old ++ generated_transport k) }
{
    text.signs("equiv t")?;
    text.number(k as usize)?;
    text.signs(" : (s ")?;
    add_applications(text, k)?;
    text.signs(");\n")
}

/// Adds a constant inside k applications.
fn add_applications(text: &mut Text, k: u32) -> Result<(), Memory>
    ensures { OnOk result (text.new ≡ text.old ++ inside_applications k) }
{
    add_repeated(text, "(g ", k)?;
    text.signs("z")?;
    add_repeated(text, ")", k)
}

/// Adds the same signs so many times.
fn add_repeated(text: &mut Text, signs: &str, times: u32) -> Result<(), Memory>
    requires { are_ascii signs.now ≡ true }
    ensures { OnOk result (text.new ≡ text.old ++ repeated times signs.now) }
{
    let mut done = 0;
    'times: while done < times {
        text.signs(signs)?;
        done += 1;
    }
    Ok(())
}
