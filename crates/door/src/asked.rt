// What a call's arguments are is settled once. Twelve words: word k is the argument of role k, and word 0 the set of the roles that the
// call names, with 0 in it where an argument that is not named is not 0.
ghost use Rattle.std.specs.Prelude.{◌≡◌, cond, ◌<◌};
ghost use Rattle.sets.specs.Set.{with, without};
ghost use Rattle.rules.specs.Tables.{role_at};
ghost use Rattle.door.specs.Asked.{Asked, unnamed_by, roles_of};

use rules::Call;
use rules::tables::TableRow;

#[tactic(auto, using(crate::proofs::Named::role_at_lem))]
fn role(row: TableRow, i: u64) -> u64
    ensures { (result ≡ role_at row i) × (result < 12) }
{
    row.role_at(i)
}

// Some argument whose role is 0 is not 0. (Six arguments in six registers and words, as C hands them in: so the six roles stand beside them one by one.)
#[tactic(auto, unfolding(sets::specs::Terms::one_of, sets::specs::Terms::one_from))]
fn spare(q: Call, r0: u64, r1: u64, r2: u64, r3: u64, r4: u64, r5: u64) -> bool
    ensures { result ≡ unnamed_by q r0 r1 r2 r3 r4 r5 }
{
    let a0 = q.a0;
    let a1 = q.a1;
    let a2 = q.a2;
    let a3 = q.a3;
    let a4 = q.a4;
    let a5 = q.a5;
    ((r0 == 0) & (0 < a0))
        | ((r1 == 0) & (0 < a1))
        | ((r2 == 0) & (0 < a2))
        | ((r3 == 0) & (0 < a3))
        | ((r4 == 0) & (0 < a4))
        | ((r5 == 0) & (0 < a5))
}

fn one_role(s: u64, r: u64) -> u64
    requires { r < 12 }
    ensures { result ≡ with s r }
{
    sets::insert(s, r as usize)
}

fn roles(r0: u64, r1: u64, r2: u64, r3: u64, r4: u64, r5: u64) -> u64
    requires { (r0 < 12) × (r1 < 12) × (r2 < 12) × (r3 < 12) × (r4 < 12) × (r5 < 12) }
    ensures { result ≡ roles_of r0 r1 r2 r3 r4 r5 }
{
    one_role(
        one_role(
            one_role(one_role(one_role(one_role(0, r0), r1), r2), r3),
            r4,
        ),
        r5,
    )
}

// The set of roles as word 0 has it: 0 is in it exactly where there is a spare argument.
fn marked(s: u64, spare: bool) -> u64
    ensures { result ≡ cond spare (with s 0) (without s 0) }
{
    if spare {
        sets::insert(s, 0)
    } else {
        sets::remove(s, 0)
    }
}

// `row` is the call's row of the table of calls.
pub fn asked(q: Call, row: TableRow) -> [u64; 12]
    requires { row ≡ q.number }
    ensures { Asked q result }
{
    let r0 = role(row, 0);
    let r1 = role(row, 1);
    let r2 = role(row, 2);
    let r3 = role(row, 3);
    let r4 = role(row, 4);
    let r5 = role(row, 5);
    let mut a = [0u64; 12];
    a[r5 as usize] = q.a5;
    a[r4 as usize] = q.a4;
    a[r3 as usize] = q.a3;
    a[r2 as usize] = q.a2;
    a[r1 as usize] = q.a1;
    a[r0 as usize] = q.a0;
    a[0] = marked(
        roles(r0, r1, r2, r3, r4, r5),
        spare(q, r0, r1, r2, r3, r4, r5),
    );
    a
}
