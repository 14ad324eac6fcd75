// Internal: wiping the stack that calls have used.
#![tactic(auto)]

ghost use Rattle.std.specs.Prelude.{◌≡◌};

// Writes zeros over the stack below its caller's frame, by rows of 128 words: 1040 bytes each, with what a call itself
// takes. What it gives says nothing, and is read from its rows so that LLVM keeps them: it cannot tell that a recursion
// ends, nor which word is read.
pub fn wipe(rows: usize) -> usize
    ensures { result ≡ 0 }
{
    if rows == 0 {
        return 0;
    }
    let row = [0usize; 128];
    let below = wipe(rows - 1);
    row[below % 128]
}

// The same after a call that did so much, where that is the least or more.
pub fn wipe_after(done: usize, least: usize, rows: usize) -> usize
    ensures { result ≡ 0 }
{
    if done < least {
        return 0;
    }
    wipe(rows)
}
