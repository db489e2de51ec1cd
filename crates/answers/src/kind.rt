// A node as a card's line has it, by its type, whole number and float.
ghost use Rattle.std.specs.Prelude.{◌≡◌, ◌+◌, ◌++◌, ◌≤◌, None, codes, length};
ghost use Rattle.kinds.specs.Types.{type_at};

use card_lines::names::name_of;
use kinds::types::Kind;
use text::written::Text;

// A node's line: its type's name, its whole number and its float, if the type has them.
pub fn push_kind<const N: usize>(out: &mut Text<N>, kind: Kind, n: u32, f: f32)
    requires { length out.old + 64 ≤ N }
    ensures { length out.new ≤ length out.old + 64 }
{
    out.push_word(name_of(kind));
    if kind.has_whole() {
        out.push_spaced(n);
    }
    if kind.has_float() {
        out.push(b' ');
        out.push_float(f);
    }
}

// The type that has a number, if there is one.
fn kind_of(t: usize) -> Option<Kind>
    ensures { result ≡ type_at t }
{
    Kind::try_from(u16::try_from(t).ok()?).ok()
}

// A node's line by its type's number; for a number that no type has, that. Ruled out: a type's name for such
// a number (no_type_named).
pub fn push_type<const N: usize>(out: &mut Text<N>, t: usize, n: u32, f: f32)
    requires { length out.old + 64 ≤ N }
    ensures room { length out.new ≤ length out.old + 64 }
    ensures none { type_at t ≡ None → out.new ≡ out.old ++ codes "no type" }
{
    match kind_of(t) {
        Some(kind) => push_kind(out, kind, n, f),
        None => out.push_word(b"no type"),
    }
}
