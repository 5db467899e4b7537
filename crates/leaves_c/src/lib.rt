// The leaf functions behind C functions, as a static library: each function of crate leaves under its name, with its contract.
#![tactic(auto)]

ghost use Rattle.std.specs.Prelude.{◌≡◌, [], ◌∷◌};
ghost use Rattle.words.specs.Region.{has, mark};
ghost use Rattle.slots.specs.Layout.{row_of};
ghost use Rattle.model.specs.Answers.{flag_word};
ghost use Rattle.wire.specs.Replies.{left};
ghost use Rattle.leaves.specs.Calls.{prepare_call, includes_call, subsumes_call, union_call, deduction_call, next_call, decide_call};
ghost use Rattle.leaves.specs.Calls.{found_call};

// The form of a row and its reads; the slot has its words where they are paid.
#[unsafe(no_mangle)]
pub extern "C" fn leaf_prepare(
    atoms: u64,
    conditions: &[u64],
    outputs: &[u64],
    paying: &[u64; 4],
    times: u64,
    slot: &mut [u64],
    answer: &mut [u64; 4],
) -> u64
    ensures { left result (slot.new ∷ answer.new ∷ [])
        ≡ prepare_call atoms conditions.now outputs.now paying.now times
        slot.old answer.old }
{
    leaves::leaf_prepare(atoms, conditions, outputs, paying, times, slot, answer)
}

// Whether the wanted codes are among the candidates. Of `forms`, 1 and 2 say which of the lists is in a stored row's form.
#[unsafe(no_mangle)]
pub extern "C" fn leaf_includes(
    atoms: u64,
    candidates: &[u64],
    wanted: &[u64],
    forms: u64,
    paying: &[u64; 4],
    times: u64,
    answer: &mut [u64; 4],
) -> u64
    ensures { left result (answer.new ∷ []) ≡ includes_call atoms candidates.now wanted.now forms
        paying.now times answer.old }
{
    leaves::leaf_includes(atoms, candidates, wanted, forms, paying, times, answer)
}

// Whether the stored row subsumes the other one; or, turned, the other one the stored row.
#[unsafe(no_mangle)]
pub extern "C" fn leaf_subsumes(
    atoms: u64,
    conditions: &[u64],
    outputs: &[u64],
    other_conditions: &[u64],
    other_outputs: &[u64],
    turned: u64,
    paying: &[u64; 4],
    times: u64,
    answer: &mut [u64; 4],
) -> u64
    ensures { left result (answer.new ∷ []) ≡ subsumes_call atoms (row_of conditions.now outputs.now)
        (row_of other_conditions.now other_outputs.now) turned paying.now times
        answer.old }
{
    leaves::leaf_subsumes(
        atoms,
        conditions,
        outputs,
        other_conditions,
        other_outputs,
        turned,
        paying,
        times,
        answer,
    )
}

// The union of the stored row with the other one; the slot has the other one's proposal after it.
#[unsafe(no_mangle)]
pub extern "C" fn leaf_union_outputs(
    atoms: u64,
    conditions: &[u64],
    outputs: &[u64],
    other_conditions: &[u64],
    other_outputs: &[u64],
    maximum: u64,
    paying: &[u64; 4],
    times: u64,
    slot: &mut [u64],
    answer: &mut [u64; 4],
) -> u64
    ensures { left result (slot.new ∷ answer.new ∷ [])
        ≡ union_call atoms (row_of conditions.now outputs.now)
        (row_of other_conditions.now other_outputs.now) maximum paying.now times
        slot.old answer.old }
{
    leaves::leaf_union_outputs(
        atoms,
        conditions,
        outputs,
        other_conditions,
        other_outputs,
        maximum,
        paying,
        times,
        slot,
        answer,
    )
}

// What a stored row says of a region.
#[unsafe(no_mangle)]
pub extern "C" fn leaf_deduction(
    atoms: u64,
    conditions: &[u64],
    outputs: &[u64],
    held: &[u64],
    cut: &[u64],
    paying: &[u64; 4],
    times: u64,
    answer: &mut [u64; 4],
) -> u64
    ensures { left result (answer.new ∷ [])
        ≡ deduction_call atoms (row_of conditions.now outputs.now) held.now cut.now
        paying.now times answer.old }
{
    leaves::leaf_deduction(atoms, conditions, outputs, held, cut, paying, times, answer)
}

// The next output of a stored row, and the cursor past it.
#[unsafe(no_mangle)]
pub extern "C" fn leaf_next_output(
    atoms: u64,
    conditions: &[u64],
    outputs: &[u64],
    held: &[u64],
    cut: &[u64],
    cursor: &mut [u64; 4],
    paying: &[u64; 4],
    answer: &mut [u64; 4],
) -> u64
    ensures { left result (cursor.new ∷ answer.new ∷ [])
        ≡ next_call atoms (row_of conditions.now outputs.now) held.now cut.now
        cursor.old paying.now answer.old }
{
    leaves::leaf_next_output(
        atoms, conditions, outputs, held, cut, cursor, paying, answer,
    )
}

// Whether the atom was decided: 1, or 0.
#[unsafe(no_mangle)]
pub extern "C" fn leaf_decide(
    atoms: u64,
    held: &mut [u64],
    cut: &mut [u64],
    atom: u64,
    value: u64,
    answer: &mut [u64; 4],
) -> u64
    ensures { left result (held.new ∷ cut.new ∷ answer.new ∷ [])
        ≡ decide_call atoms held.old cut.old atom value answer.old }
{
    leaves::leaf_decide(atoms, held, cut, atom, value, answer)
}

// 1 and the first position, or 0.
#[unsafe(no_mangle)]
pub extern "C" fn leaf_next_from(words: &[u64], from: u64, answer: &mut [u64; 4]) -> u64
    ensures { left result (answer.new ∷ []) ≡ found_call words.now from }
{
    leaves::leaf_next_from(words, from, answer)
}

// 1 if the atom is among the words, else 0.
#[unsafe(no_mangle)]
pub extern "C" fn leaf_contains(words: &[u64], atom: u64) -> u64
    ensures { result ≡ flag_word (has words.now atom) }
{
    leaves::leaf_contains(words, atom)
}

// Puts the atom among the words.
#[unsafe(no_mangle)]
pub extern "C" fn leaf_insert(words: &mut [u64], atom: u64)
    ensures { words.new ≡ mark words.old atom }
{
    leaves::leaf_insert(words, atom)
}
