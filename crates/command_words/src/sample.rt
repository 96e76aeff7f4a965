ghost use Rattle.std.specs.Prelude.{◌≡◌, ◌≤◌, ◌<◌, ◌++◌, IfOk, OnOk, decimal};
ghost use Rattle.command_words.specs.Sample.{sample_text, caller_line, main_line};

use c_tree::Memory;
use itoa::Buffer;
use std::alloc::Global;

/// The source of the sample with so many procedures beside `main`: each but the first calls the one before it twice.
pub fn sample_source(alloc: Global, count: u32) -> Result<Vec<u8>, Memory>
    requires some { 1 ≤ count }
    requires most { count ≤ 4000 }
    ensures { IfOk result (λ source. source.items ≡ sample_text count) }
{
    let mut text = Vec::from_slice(alloc, b"struct node { int v; struct node *next; };\n")?;
    text.extend_from_slice(b"struct node *f0(struct node *p) { return p; }\n")?;
    let last = count - 1;
    for j in 0..last {
        push_caller(j, &mut text)?;
    }
    push_main(last, &mut text)?;
    Ok(text)
}

/// Adds the procedure of the number after `j`, which calls that of number `j`.
fn push_caller(j: u32, text: &mut Vec<u8>) -> Result<(), Memory>
    requires { j < 4000 }
    ensures { OnOk result (text.new.items ≡ text.old.items ++ caller_line j) }
{
    text.extend_from_slice(b"struct node *f")?;
    push_number(j + 1, text)?;
    text.extend_from_slice(b"(struct node *p) { struct node *q; q = f")?;
    push_number(j, text)?;
    text.extend_from_slice(b"(p); return f")?;
    push_number(j, text)?;
    text.extend_from_slice(b"(q); }\n")?;
    Ok(())
}

/// Adds `main`, which calls the procedure of that number.
fn push_main(number: u32, text: &mut Vec<u8>) -> Result<(), Memory>
    ensures { OnOk result (text.new.items ≡ text.old.items ++ main_line number) }
{
    text.extend_from_slice(
        b"int main(void) { struct node *a; struct node *b; a = malloc(sizeof(struct node)); b = f",
    )?;
    push_number(number, text)?;
    text.extend_from_slice(b"(a); free(b); return 0; }\n")?;
    Ok(())
}

fn push_number(number: u32, text: &mut Vec<u8>) -> Result<(), Memory>
    ensures { OnOk result (text.new.items ≡ text.old.items ++ decimal number) }
{
    let mut digits = Buffer::new();
    text.extend_from_slice(digits.format(number).as_bytes())?;
    Ok(())
}
