// Made by forms/write_tests.sh from the programs in forms/input and from what a C compiler makes of them.
// Change those and run the script again, and never this file.

use super::{Program, all_hold};

#[test]
fn programs_hold(rt: HostRuntime) {
    all_hold(&rt, rt.alloc(), &PROGRAMS);
}

const PROGRAMS: [Program<'static>; 9] = [
    Program {
        name: "forms/input/assigned",
        source: br"// `in` and `n_in` are assigned, in a region and outside.
// Whole turns: 8.
int in[6];
int n_in;

int main() {
  in[4] = 11;
  n_in += 2;
  pfor (int i = 0; i < n_in; i++) {
    in[i] = in[i] * 2 + i;
    if (i > 0) in[i - 1] += in[i];
    if (i == 1) n_in++;
    print(in[i]);
  }
  print(n_in);
  n_in = 100;
  pwhile (n_in > 10) { n_in /= 5; in[5] ^= n_in; }
  for (int i = 0; i < 6; i++) print(in[i]);
  print(n_in);
}
",
        input: br"3 1 -4",
        text: b"6\n3\n-6\n3\n26\n5\n6\n9\n-3\n-3\n29\n31\n21\n4\n",
        returned: 0,
        turns: Some(8),
    },
    Program {
        name: "forms/input/count_alone",
        source: br"// `n_in` without an array `in`, and an int named `in`.
// Whole turns: 2.
int in = 5;
int n_in = 6;

int main() {
  pwhile (in > n_in) in -= 3;
  in++;
  print(in);
  print(n_in);
}
",
        input: b"",
        text: b"0\n0\n",
        returned: 0,
        turns: Some(2),
    },
    Program {
        name: "forms/input/full",
        source: br"// Input that just fills the array.
// Whole turns: 3.
int in[3];
int n_in;

int main() {
  pfor (int i = 0; i < n_in; i++) print(in[i]);
}
",
        input: br"5 -7 40
",
        text: b"5\n-7\n40\n",
        returned: 0,
        turns: Some(3),
    },
    Program {
        name: "forms/input/in_functions",
        source: br"// `in` and `n_in` in functions that a region calls.
// Whole turns: 6.
int n_in;
int in[5];

int pop() { n_in--; return in[n_in]; }
void push(int x) { in[n_in] = x; n_in++; }

int main() {
  int s = 0;
  pfor (int i = 0; i < 2; i++) {
    int x = pop();
    int y = pop();
    push(x - y);
    push(x * y);
    s += x;
    print(x);
  }
  print(s);
  pwhile (n_in) print(pop());
}
",
        input: br"2 3 5 7",
        text: b"7\n35\n42\n70\n33\n3\n2\n",
        returned: 0,
        turns: Some(6),
    },
    Program {
        name: "forms/input/locals",
        source: br"// Locals and parameters named `in` and `n_in`.
// Whole turns: 5.
int in[4];
int n_in;

int f(int in, int n_in) {
  pfor (int i = 0; i < n_in; i++) in += n_in;
  return in;
}

int main() {
  int s = f(in[0], in[1]);
  {
    int n_in = 2;
    pfor (int in = 0; in < n_in; in++) s += in;
  }
  print(s);
  print(n_in);
  print(in[2]);
}
",
        input: br"10 3",
        text: b"20\n2\n0\n",
        returned: 0,
        turns: Some(5),
    },
    Program {
        name: "forms/input/none",
        source: br"// `in` and `n_in` without an input.
// Whole turns: 3.
int in[4] = {7, -8};
int n_in = 5;

int main() {
  print(n_in);
  pfor (int i = n_in; i < 3; i++) print(in[i]);
  in[1] += 3;
  n_in--;
  print(in[1] * n_in);
}
",
        input: b"",
        text: b"0\n7\n-8\n0\n5\n",
        returned: 0,
        turns: Some(3),
    },
    Program {
        name: "forms/input/other_kinds",
        source: br"// A function named `in` and an array named `n_in`.
// Whole turns: 3.
int n_in[3] = {4, 5, 6};
int in(int x) { return n_in[x] * 2; }

int main() {
  pfor (int i = 0; i < 3; i++) n_in[i] += in(2 - i);
  for (int i = 0; i < 3; i++) print(n_in[i]);
}
",
        input: b"",
        text: b"16\n15\n38\n",
        returned: 0,
        turns: Some(3),
    },
    Program {
        name: "forms/input/summed",
        source: br"// A sum of the input, which doesn't fill the array.
// Whole turns: 5.
int in[8] = {1, 2, 3, 4, 5, 6, 70, 80};
int n_in = -3;

int main() {
  int s = 0;
  pfor (int i = 0; i < n_in; i++) s += in[i];
  print(s);
  print(n_in);
  for (int i = 0; i < 8; i++) print(in[i]);
  return s;
}
",
        input: b"100 -7 0\n\x092147483647 -2147483648",
        text: b"92\n5\n100\n-7\n0\n2147483647\n-2147483648\n6\n70\n80\n",
        returned: 92,
        turns: Some(5),
    },
    Program {
        name: "forms/input/without_count",
        source: br"// An array `in` without `n_in`, and with numbers read as indexes.
// Whole turns: 6.
int in[6] = {9, 9, 9, 9, 9, 9};

int main() {
  int at = 0, n = 0;
  pwhile (n < 6) { print(at); at = in[at]; n++; if (at > 5) at -= 5; }
  print(in[5]);
}
",
        input: b"3\n2\x0d\n5\n\n1 4",
        text: b"0\n3\n1\n2\n5\n4\n9\n",
        returned: 0,
        turns: Some(6),
    },
];
