// Functions, and a whole table: what is kept of each function for those after it.
ghost use Rattle.std.specs.Prelude.{◌≡◌, ◌≤◌};
ghost use Rattle.emitting.specs.Emitting.{sheet};
ghost use Rattle.script.specs.Shape.{times};
ghost use Rattle.emitting.specs.Walking.{desk_of};
ghost use Rattle.compiler.specs.Writing.{rolls, heads, copy, walk_f, walk_fs, walk_p};

use crate::masks::Place;
use crate::statement::statement;
use emitting::emitter::Emitter;
use emitting::walk::{Source, Walk};
use scoping::passes::note;
use tape::held::sum;
use tape::instruction::Instruction::{CFunc, Def, Lit, Ret};
use word::operators::{FALSE, TRUE};
use word::reader::Reader;

// CFUNC, rval and rnset.
#[tactic(auto, unfolding(tape::specs::Named::named, crate::specs::Writing::heads))]
fn head(out: &mut [u32], to: Emitter, params: u32, slots: u32, depth: u32) -> Emitter
    requires { slots ≤ 32 }
    ensures { sheet out.new result ≡ heads params slots depth (sheet out.old to) }
{
    let own = CFunc {
        params,
        slots: sum(slots + 2, depth),
    };
    let head = to.put(out, own);
    let no = head.put(out, Lit(FALSE));
    let rval = no.put(out, Def(slots));
    let yes = rval.put(out, Lit(TRUE));
    yes.put(out, Def(slots + 1))
}

// Records as they stand: PROGRAM, and the arrays.
#[tactic(auto, using(script::proofs::Times::times_more, script::proofs::Times::times_over))]
fn copied(table: &[u32], out: &mut [u32], from: Walk, n: u32) -> Walk
    ensures { desk_of out.new result ≡ times n (copy table.now) (desk_of out.old from) }
{
    let mut here = from;
    for i in 0..n {
        here = copied_one(table, out, here);
    }
    here
}

#[tactic(auto, using(crate::proofs::Tables::copy_end, crate::proofs::Tables::copy_found))]
fn copied_one(table: &[u32], out: &mut [u32], from: Walk) -> Walk
    ensures { desk_of out.new result ≡ copy table.now (desk_of out.old from) }
{
    let Some((x, reader)) = from.reader.next(table) else {
        return from;
    };
    Walk {
        reader,
        emitter: from.emitter.copy(out, x),
    }
}

// Function f: its own records round its body's; and what is kept of it. A table that was read has 32 slots at most in a function. The depths are the cost's and only
// read, the parameters grow by one at each function: so they are two lists.
#[tactic(auto, using(crate::proofs::Tables::walk_f_end, crate::proofs::Tables::walk_f_found), unfolding(tape::specs::Named::named, scoping::specs::Passes::noted, crate::specs::Writing::body_of))]
fn function(
    table: &[u32],
    depths: &[u32],
    params: &mut [u32],
    out: &mut [u32],
    from: Walk,
    f: u32,
) -> Walk
    ensures { rolls (desk_of out.new result) params.new
        ≡ walk_f table.now depths.now f (rolls (desk_of out.old from) params.old) }
{
    let Some((x, reader)) = from.reader.next(table) else {
        return from;
    };
    let slots = x.q.min(32);
    let depth = depths.get(f as usize).copied().unwrap_or(0);
    let emitter = head(out, from.emitter, x.p, slots, depth);
    let first = Walk { reader, emitter };
    let source = Source { table, params };
    let body = statement(source, out, first, Place { slots, ifs: 0 }, 16);
    let last = body.put(out, Ret(slots));
    note(params, f as usize, x.p);
    last
}

// The functions one after another.
#[tactic(auto, using(crate::proofs::Tables::walk_fs_on, crate::proofs::Tables::walk_fs_end))]
fn functions(table: &[u32], depths: &[u32], params: &mut [u32], out: &mut [u32], from: Walk, n: u32)
    ensures { out.new ≡ walk_fs table.now depths.now n 0 (rolls (desk_of out.old from) params.old) }
{
    let mut here = from;
    for f in 0..n {
        here = function(table, depths, params, out, here, f);
    }
}

// A whole table: its translation goes to `out` as far as there is room, with `depths` the deepest IF nestings of the functions.
#[tactic(auto, using(crate::proofs::Tables::walk_p_end, crate::proofs::Tables::walk_p_found), unfolding(script::specs::Shape::times))]
pub fn translate(table: &[u32], depths: &[u32], out: &mut [u32])
    ensures { out.new ≡ walk_p table.now depths.now out.old }
{
    let reader = Reader::new();
    let Some((x, _)) = reader.next(table) else {
        return;
    };
    let mut params = [0u32; 16];
    let start = Walk {
        reader,
        emitter: Emitter::new(),
    };
    let program = copied(table, out, start, 1);
    let arrays = copied(table, out, program, x.q);
    functions(table, depths, &mut params, out, arrays, x.p);
}
