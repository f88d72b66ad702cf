// Which forms are instructions, and what each costs: one number an operation and one a mode. The operations' stand in a static: a constant
// array would be built anew where it is named. Operation and mode are numbers here, digits of a tag: a cell's form is tested before there is an
// Op or an Operand of it.
ghost use Rattle.std.specs.Prelude.{◌≡◌, true, ◌+◌, ◌<◌, get_or};
ghost use Rattle.definition.specs.Arguments.{mode_cost};
ghost use Rattle.definition.specs.Encoding.{legal, cost};
ghost use Rattle.encoding.specs.Forms.{operations, has};

// An operation's number: bit m is set where the first operand may have mode m, bit 6 + m where the second may.
static OPERATIONS: [u32; 33] = [
    318, // add
    318, // and
    126, // call
    318, // cmp
    318, // div
    312, // fas
    312, // in
    126, // jmp
    126, // jeq
    126, // jne
    126, // jle
    126, // jlt
    126, // jge
    126, // jgt
    318, // ld
    318, // mul
    68, // neg
    65, // nop
    68, // not
    318, // or
    3590, // out
    68, // pop
    70, // push
    65, // reset
    65, // rti
    65, // rtn
    318, // shl
    318, // shr
    3588, // st
    318, // sub
    316, // swap
    65, // trap
    318, // xor
];

#[tactic(auto, unfolding(crate::specs::Forms::operations))]
fn operation(op: u32) -> u32
    requires { op < 33 }
    ensures { result ≡ get_or operations op 0 }
{
    OPERATIONS[op as usize]
}

// A mode's number: the cycles that an operand of it adds.
#[tactic(auto, unfolding(definition::specs::Arguments::mode_cost))]
fn mode(m: u32) -> u64
    requires { m < 6 }
    ensures { result ≡ mode_cost m }
{
    match m {
        0..=2 => 0,
        _ => 1,
    }
}

#[tactic(auto, unfolding(crate::specs::Forms::has))]
fn has(n: u32, bit: u32) -> bool
    requires { bit < 32 }
    ensures { result ≡ has n bit }
{
    (n >> bit) % 2 == 1
}

// "of which 124 are instructions"
#[tactic(auto, using(crate::proofs::Rule::legal_worked), unfolding(crate::specs::Forms::worked_legal))]
pub fn is_legal(op: u32, m1: u32, m2: u32) -> bool
    requires { (op < 33) × ((m1 < 6) × (m2 < 6)) }
    ensures { result ≡ legal op m1 m2 }
{
    let n = operation(op);
    has(n, m1) & has(n, 6 + m2)
}

// "An instruction costs one cycle and what its operands add."
#[tactic(auto, using(crate::proofs::Rule::mode_small, crate::proofs::Rule::cost_legal))]
pub fn cost_of(op: u32, m1: u32, m2: u32) -> u64
    requires { (op < 33) × ((m1 < 6) × ((m2 < 6) × (legal op m1 m2 ≡ true))) }
    ensures { result ≡ cost op m1 m2 }
{
    1 + mode(m1) + mode(m2)
}
