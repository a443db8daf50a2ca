// What the kinds of faults mean.

ghost use Rattle.std.specs.Prelude.{◌≡◌, is_some};
ghost use Rattle.hx_explain.specs.Numbers.{is_fault};

use crate::row::{Explanation, explained};

/// What a kind of fault means: there are texts for 1 to 4, and for no other number.
pub fn fault_texts(kind: u32) -> Option<Explanation>
    ensures { is_some result ≡ is_fault kind }
{
    if kind == 1 {
        explained(
            "The right side of a division or a remainder is 0. The place is the operator's.",
            "int z; int main(){ print(7/z); }",
            "int z; int main(){ if(z!=0) print(7/z); }",
        )
    } else if kind == 2 {
        explained(
            "An index is below 0, or not below the array's length. The place is the array's name.",
            "int a[4]; int main(){ a[4]=1; }",
            "int a[4]; int main(){ a[3]=1; }",
        )
    } else if kind == 3 {
        explained(
            "A function is called where 64 calls are under way. The place is the called name.",
            "int f(int n){ return f(n+1); } int main(){ f(0); }",
            "int f(int n){ if(n==9) return n; return f(n+1); } int main(){ f(0); }",
        )
    } else if kind == 4 {
        explained(
            "The printed text would pass 1,048,576 bytes. The place is the word 'print' or 'emit'.",
            "int main(){ while(1) print(1); }",
            "int main(){ for(int i=0;i<9;i++) print(1); }",
        )
    } else {
        None
    }
}
