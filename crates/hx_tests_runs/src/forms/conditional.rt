// Made by forms/write_tests.sh from the programs in forms/conditional and from what a C compiler makes of them.
// Change those and run the script again, and never this file.

use super::{Program, all_hold};

#[test]
fn programs_hold(rt: HostRuntime) {
    all_hold(&rt, rt.alloc(), &PROGRAMS);
}

const PROGRAMS: [Program<'static>; 10] = [
    Program {
        name: "forms/conditional/arguments",
        source: br"// As an argument, and in one, with operands that wait.
int three(int a, int b, int c) {
  return a * 100 + b * 10 + c;
}

int main() {
  int x = 4;
  print(three(x ? 1 : 2, x > 4 ? 3 : 4, x < 4 ? 5 : 6));
  print(1 + (2 + (x ? 3 + (x > 3 ? 4 : 5) : 6)));
  print(three(1, three(0, x & 4 ? 1 : 0, 2) % 10, x ? three(0, 0, x) : 0));
  print(x + (x ? x * (x - 4 ? 1 : 2) : 3) - (0 ? 1 : x));
  return 0;
}
",
        input: b"",
        text: b"146\n10\n124\n8\n",
        returned: 0,
        turns: None,
    },
    Program {
        name: "forms/conditional/binding",
        source: br"// Looser than `||`, on both sides; operators before an operand bind tighter.
int main() {
  int a = 0;
  int b = 3;
  print(a || b ? 1 : 2);
  print(a && b ? 1 : a || b);
  print(b ? a || a : b);
  print(a ? 1 : a && b || b);
  print(a == 0 ? b + 1 : b - 1);
  print(!a ? ~b : -b);
  print(a | b ? a ^ b : a & b);
  print(b << 1 > 5 ? b >> 1 : b % 2);
  print(2 * (a ? 3 : 4) + 1);
  print(-(b ? 1 : 2));
  print((a ? 0 : 1) && (b ? 0 : 1));
  return 0;
}
",
        input: b"",
        text: b"1\n1\n0\n1\n4\n-4\n3\n1\n9\n-1\n0\n",
        returned: 0,
        turns: None,
    },
    Program {
        name: "forms/conditional/calls",
        source: br"// Calls in the test and in both arms: the test's first, and then one alone.
int n;

int shows(int k) {
  n++;
  print(k);
  return k;
}

int twice(int k) {
  return k > 3 ? k : twice(k * 2);
}

int main() {
  print(shows(1) ? shows(2) : shows(3));
  print(shows(0) ? shows(4) : shows(5));
  print(shows(shows(0) ? 6 : 7) ? shows(8) : 9);
  shows(n > 3 ? shows(10) : 11);
  print(n);
  print(twice(1));
  return 0;
}
",
        input: b"",
        text: b"1\n2\n2\n0\n5\n5\n0\n7\n8\n8\n10\n10\n9\n4\n",
        returned: 0,
        turns: None,
    },
    Program {
        name: "forms/conditional/clauses",
        source: br"// In each clause of a `for`, in declarations, tests, `print` and `return`.
// Whole turns: 4.
int pick(int up) {
  return up ? 2 : -2;
}

int main() {
  int up = 1;
  int from = up ? 0 : 8, to = up ? 8 : 0;
  for (int i = up ? from : to; up ? i < to : i > from; i += up ? 3 : -3) print(i);
  pfor (int i = up ? 1 : 2; i < (up ? 9 : 3); i += pick(up)) emit(i > 4 ? 65 + i : 97 + i);
  emit(up ? 10 : 32);
  if (up ? to : from) print(1); else print(2);
  while (up ? from < 2 : 0) from++;
  do to -= up ? 5 : 1; while (to > 0 ? 1 : 0);
  print(from);
  print(to);
  return up ? 0 : 1;
}
",
        input: b"",
        text: b"0\n3\n6\nbdFH\n1\n2\n-2\n",
        returned: 0,
        turns: Some(4),
    },
    Program {
        name: "forms/conditional/in_pfor",
        source: br"// In the turns of a `pfor`: what is read in one arm alone is taken along.
// Whole turns: 6.
int a[6];

int main() {
  int odd = 3;
  int even = 4;
  int s = 0;
  int last = -1;
  pfor (int i = 0; i < 6; i++) {
    a[i] = i % 2 ? odd * i : even;
    s += last < 0 ? 100 : a[last];
    last = i > 2 ? last : i;
  }
  print(s);
  print(last);
  for (int i = 0; i < 6; i++) print(a[i]);
  return 0;
}
",
        input: b"",
        text: b"119\n2\n4\n3\n4\n9\n4\n15\n",
        returned: 0,
        turns: Some(6),
    },
    Program {
        name: "forms/conditional/in_pwhile",
        source: br"// In the test and the turns of a `pwhile`.
// Whole turns: 7.
int main() {
  int n = 3;
  int steps = 0;
  pwhile (n == 1 ? 0 : 1) {
    n = n % 2 ? 3 * n + 1 : n / 2;
    steps++;
    print(n);
  }
  print(steps);
  return 0;
}
",
        input: b"",
        text: b"10\n5\n16\n8\n4\n2\n1\n7\n",
        returned: 0,
        turns: Some(7),
    },
    Program {
        name: "forms/conditional/indexes",
        source: br"// As an index, read, assigned and updated, and as what is assigned.
int a[6];

int main() {
  for (int i = 0; i < 6; i++) a[i < 3 ? i : 8 - i] = i ? i * i : 7;
  for (int i = 0; i < 6; i++) print(a[i]);
  a[a[0] ? 1 : 2] += a[1] ? a[2] : 1;
  a[a[0] > 100 ? 1 : 2]++;
  a[3] *= a[4] > a[5] ? 2 : 3;
  for (int i = 0; i < 6; i++) print(a[i]);
  print(a[a[0] == 7 ? a[1] > 5 ? 4 : 5 : 0]);
  return 0;
}
",
        input: b"",
        text: b"7\n1\n4\n25\n16\n9\n7\n5\n5\n50\n16\n9\n9\n",
        returned: 0,
        turns: None,
    },
    Program {
        name: "forms/conditional/not_taken",
        source: br"// What would fail stands in the arm that isn't taken.
int a[3] = {5, 6, 7};

int part(int x, int y) {
  return y ? x / y : 0;
}

int rest(int x, int y) {
  return y == 0 ? -1 : x % y;
}

int at(int i) {
  return i >= 0 && i < 3 ? a[i] : -1;
}

int down(int n) {
  return n == 0 ? 0 : n + down(n - 1);
}

int main() {
  for (int i = -1; i < 5; i++) {
    print(part(12, i));
    print(rest(13, i));
    print(at(i));
  }
  print(down(50));
  return 0;
}
",
        input: b"",
        text: b"-12\n0\n-1\n0\n-1\n5\n12\n0\n6\n6\n1\n7\n4\n1\n-1\n3\n1\n-1\n1275\n",
        returned: 0,
        turns: None,
    },
    Program {
        name: "forms/conditional/right",
        source: br"// To the right, and what stands between `?` and `:` as if in parentheses.
int choose(int a, int b, int c) {
  return a ? b ? 1 : 2 : c ? 3 : 4;
}

int sign(int n) {
  return n < 0 ? -1 : n > 0 ? 1 : 0;
}

int main() {
  for (int i = 0; i < 8; i++) print(choose(i & 4, i & 2, i & 1));
  for (int i = -2; i < 3; i++) print(sign(i));
  print(0 ? 1 : 0 ? 2 : 0 ? 3 : 4);
  print(1 ? 0 ? 1 : 2 : 3);
  print((0 ? 1 : 0) ? 5 : 6);
  return 0;
}
",
        input: b"",
        text: b"4\n3\n4\n3\n2\n2\n1\n1\n-1\n-1\n0\n1\n1\n4\n2\n6\n",
        returned: 0,
        turns: None,
    },
    Program {
        name: "forms/conditional/values",
        source: br"// A test that isn't 0, and one that is.
int main() {
  print(1 ? 2 : 3);
  print(0 ? 2 : 3);
  print(-1 ? -2 : -3);
  int x = 5;
  print(x ? x : 0);
  print(x > 5 ? 1 : x == 5 ? 2 : 3);
  print((x ? 10 : 20) + (x - 5 ? 1 : 2));
  x = x < 3 ? x : -x;
  print(x);
  x += x < 0 ? 100 : 200;
  print(x);
  return 0;
}
",
        input: b"",
        text: b"2\n3\n-2\n5\n2\n12\n-5\n95\n",
        returned: 0,
        turns: None,
    },
];
