// Made by forms/write_tests.sh from the programs in forms/marked and from what a C compiler makes of them.
// Change those and run the script again, and never this file.

use super::{Program, all_hold};

#[test]
fn programs_hold(rt: HostRuntime) {
    all_hold(&rt, rt.alloc(), &PROGRAMS);
}

const PROGRAMS: [Program<'static>; 19] = [
    Program {
        name: "forms/marked/called_in_first_clause",
        source: br"// A function with a marked loop in the first clause of a marked loop: the latter is not active yet.
// Whole turns: 7.
int g;

int count(int n) {
  int c = 0;
  pfor (int i = 0; i < n; i++) { c += 3; g += c; }
  return c;
}

int main() {
  pfor (int i = count(4); i > 3; i -= count(1)) print(i + g);
  print(g);
}
",
        input: b"",
        text: b"42\n42\n42\n39\n",
        returned: 0,
        turns: Some(7),
    },
    Program {
        name: "forms/marked/called_in_region",
        source: br"// A function with a marked loop, called from a region, and called outside of one.
// Whole turns: 12.
int g;

int sum_to(int n) {
  int s = 0;
  pfor (int i = 1; i <= n; i++) { s += i; g++; }
  return s;
}

int main() {
  print(sum_to(4));
  pfor (int i = 0; i < 3; i++) print(sum_to(i * 2) + i);
  print(sum_to(5));
  print(g);
  return 0;
}
",
        input: b"",
        text: b"10\n0\n4\n12\n15\n15\n",
        returned: 0,
        turns: Some(12),
    },
    Program {
        name: "forms/marked/called_in_test",
        source: br"// Functions with marked loops, called in the test and the step of a marked loop.
// Whole turns: 3.
int g;

int count(int n) {
  int c = 0;
  pfor (int i = 0; i < n; i++) { c += 2; g++; }
  return c;
}

int main() {
  pfor (int i = 0; count(i) < 9; i += count(1)) print(i);
  print(g);
}
",
        input: b"",
        text: b"0\n2\n4\n15\n",
        returned: 0,
        turns: Some(3),
    },
    Program {
        name: "forms/marked/called_twice_deep",
        source: br"// A marked loop in a function that a function called from a region calls.
// Whole turns: 4.
int g;

void mark(int n) { pwhile (n > 0) { n -= 2; g = g * 2 + n; } }
int between(int n) {
  for (int i = 0; i < n; i++) mark(i + 1);
  mark(n);
  return g;
}

int main() {
  pfor (int i = 0; i < 4; i++) { print(between(i)); mark(i); }
  print(g);
  return 0;
}
",
        input: b"",
        text: b"0\n-3\n-60\n-7707\n-30827\n",
        returned: 0,
        turns: Some(4),
    },
    Program {
        name: "forms/marked/hidden_names",
        source: br"// Locals in a region that hide outer names, also those of functions and arrays.
// Whole turns: 3.
int g = 7;
int a[2] = {1, 2};
int f(int x) { return x + 1; }

int main() {
  int s = 0;
  pfor (int i = 0; i < 3; i++) {
    int t = f(i) + a[i & 1];
    int f = t * 2;
    int a = f + g;
    {
      int s = a + 1;
      int g = s * 2;
      int i = g;
      s += i;
      print(s);
    }
    s += a;
    pfor (int g = 0; g < 2; g++) { int s = g; s++; print(s + f); }
  }
  print(s);
  print(g);
  print(f(a[1]));
}
",
        input: b"",
        text: b"36\n5\n6\n48\n9\n10\n48\n9\n10\n41\n7\n3\n",
        returned: 0,
        turns: Some(3),
    },
    Program {
        name: "forms/marked/in_arms",
        source: br"// Marked loops in the arms of `if`s, in a region and outside.
// Whole turns: 7.
int g;

int main() {
  for (int k = 0; k < 2; k++) {
    if (k) pfor (int i = 0; i < 2; i++) g += 10; else pwhile (g < 3) g++;
    print(g);
  }
  pfor (int k = 0; k < 2; k++) {
    if (k) { pfor (int i = 0; i < 2; i++) g += 100; } else { int m = 4; pwhile (m) { m--; g += m; } }
    print(g);
  }
  return 0;
}
",
        input: b"",
        text: b"3\n23\n29\n229\n",
        returned: 0,
        turns: Some(7),
    },
    Program {
        name: "forms/marked/no_turns",
        source: br"// Marked loops without a turn, in a region and outside.
// Whole turns: 4.
int main() {
  int n = 5;
  pfor (int i = n; i < 5; i++) print(i);
  pwhile (n != 5) n++;
  pfor (n = 7; n < 7; n++) print(n);
  print(n);
  pfor (int i = 0; i < 4; i++) {
    pwhile (i > 9) print(i);
    pfor (int j = i; j < i; j++) print(j);
    pfor (n = i; n < 2; n++) print(n + 10);
    print(n);
  }
}
",
        input: b"",
        text: b"7\n10\n11\n2\n11\n2\n2\n3\n",
        returned: 0,
        turns: Some(4),
    },
    Program {
        name: "forms/marked/odd_counters",
        source: br"// Counters of a `pfor` that are a global, an element or a local from further out, or that the body changes.
// Whole turns: 21.
int g;
int a[3] = {5, 6, 7};

int main() {
  int n;
  pfor (g = 3; g < 6; g++) print(g);
  print(g);
  pfor (a[1] = 2; a[1]; a[1]--) a[0] += a[1];
  print(a[0]);
  pfor (n = 0; n * n < 17; n++) ;
  print(n);
  pfor (int i = 0; i < 20; i++) { i += i; print(i); }
  pfor (int i = 10, j = 0; i > j; j += 2) { i--; print(i * 10 + j); }
  pfor (; n > 3; ) n--;
  print(n);
}
",
        input: b"",
        text: b"3\n4\n5\n6\n8\n5\n0\n2\n6\n14\n30\n90\n82\n74\n66\n3\n",
        returned: 0,
        turns: Some(21),
    },
    Program {
        name: "forms/marked/plain_between",
        source: br"// A marked loop in a plain one in a marked one, and the other way round.
// Whole turns: 11.
int c[4];

int main() {
  pfor (int i = 0; i < 3; i++)
    for (int j = 0; j < 2; j++)
      pfor (int k = 0; k < 2; k++) c[i] += 10 * j + k;
  for (int i = 0; i < 2; i++)
    pfor (int j = 0; j < 4; j++)
      for (int k = 0; k < j; k++) c[3] += i + k;
  for (int i = 0; i < 4; i++) print(c[i]);
}
",
        input: b"",
        text: b"22\n22\n22\n14\n",
        returned: 0,
        turns: Some(11),
    },
    Program {
        name: "forms/marked/recursion_active_or_not",
        source: br"// A recursive function with a region, called from a region and outside of one.
// Whole turns: 14.
int g;

int walk(int n, int s) {
  pfor (int i = 0; i < n; i++) { s += i; g++; }
  if (n > 1) s = walk(n - 1, s * 2);
  return s;
}

int main() {
  print(walk(4, 1));
  print(g);
  pfor (int i = 0; i < 4; i++) print(walk(i, i));
  print(g);
  return 0;
}
",
        input: b"",
        text: b"70\n10\n0\n1\n6\n26\n20\n",
        returned: 0,
        turns: Some(14),
    },
    Program {
        name: "forms/marked/recursion_both",
        source: br"// A function that calls itself from its marked loop and from behind it.
// Whole turns: 20.
int g;

int both(int n, int way) {
  int s = n;
  if (n <= 0) return way;
  if (way % 2) s += both(n - 1, way + 1);
  pwhile (s % 5) {
    s++;
    g++;
    if (g % 3 == 0) s += both(n - 2, s) % 7;
    if (n == 1) { way += s; break; }
  }
  return s + both(n - 1, way);
}

int main() {
  print(both(3, 1));
  print(g);
  print(both(4, 0));
  print(g);
  return 0;
}
",
        input: b"",
        text: b"54\n14\n38\n33\n",
        returned: 0,
        turns: Some(20),
    },
    Program {
        name: "forms/marked/recursion_carried",
        source: br"// A recursive function whose region carries its parameter and a local, and returns out of it.
// Whole turns: 14.
int depth(int n, int left) {
  int d = 0;
  pwhile (n > 1) {
    if (n % 2) { n = 3 * n + 1; if (left > 0) return d + depth(n, left - 1); }
    n /= 2;
    d++;
  }
  return d * 10 + left;
}

int main() {
  print(depth(1, 5));
  print(depth(8, 5));
  print(depth(7, 2));
  print(depth(7, 0));
  print(depth(27, 20));
  return 0;
}
",
        input: b"",
        text: b"5\n35\n101\n110\n457\n",
        returned: 0,
        turns: Some(14),
    },
    Program {
        name: "forms/marked/recursion_deep",
        source: br"// Sixty calls under way in a region, with a marked loop in each.
// Whole turns: 2.
int g;

int sum(int n) {
  if (n == 0) return g;
  int s = 0;
  pfor (int i = 0; i < 2; i++) { if (i) s += sum(n - 1); else g++; }
  return s + n;
}

int main() {
  pfor (int i = 0; i < 2; i++) print(sum(60 + i));
  return 0;
}
",
        input: b"",
        text: b"1890\n2012\n",
        returned: 0,
        turns: Some(2),
    },
    Program {
        name: "forms/marked/recursion_fibonacci",
        source: br"// A recursive function without marked loops, called in the turns and in the test.
// Whole turns: 8.
int calls;

int fib(int n) {
  calls++;
  if (n < 2) return n;
  int a = fib(n - 1);
  return a + fib(n - 2);
}

int main() {
  int n = 0;
  pwhile (fib(n) < 20) { print(fib(n)); n++; }
  print(n);
  print(calls);
  return 0;
}
",
        input: b"",
        text: b"0\n1\n1\n2\n3\n5\n8\n13\n8\n267\n",
        returned: 0,
        turns: Some(8),
    },
    Program {
        name: "forms/marked/recursion_inside",
        source: br"// A function that calls itself from its marked loop: the outermost call alone has a region.
// Whole turns: 2.
int g;

int tree(int n) {
  int s = 1;
  pfor (int i = 0; i < 2; i++) {
    if (n > 0) s += tree(n - 1 - i);
    g++;
    s += i;
  }
  return s + n * 100;
}

int main() {
  print(tree(4));
  print(g);
  return 0;
}
",
        input: b"",
        text: b"1130\n30\n",
        returned: 0,
        turns: Some(2),
    },
    Program {
        name: "forms/marked/recursion_outside",
        source: br"// A recursive function with a region behind its call of itself: each call has a region of its own.
// Whole turns: 15.
int g;

int down(int n) {
  if (n == 0) return 1;
  int s = down(n - 1);
  pfor (int i = 0; i < n; i++) { s += i * n; g++; }
  print(s);
  return s;
}

int main() {
  print(down(5));
  print(g);
  return 0;
}
",
        input: b"",
        text: b"1\n3\n12\n36\n86\n86\n15\n",
        returned: 0,
        turns: Some(15),
    },
    Program {
        name: "forms/marked/siblings",
        source: br"// Regions one behind another, and marked loops one behind another in a region.
// Whole turns: 14.
int a[6];

int main() {
  int s = 0;
  pfor (int i = 0; i < 6; i++) a[i] = i * i;
  pfor (int i = 5; i >= 3; i--) {
    pfor (int j = 0; j < i; j++) a[j] += a[i];
    pwhile (a[i] > 9) { a[i] -= 9; s++; }
    pfor (int j = i; j < 6; j++) s += a[j];
    print(s);
  }
  pwhile (s > 10) s -= 8;
  print(s);
  for (int i = 0; i < 6; i++) print(a[i]);
}
",
        input: b"",
        text: b"9\n25\n48\n8\n141\n142\n145\n3\n5\n7\n",
        returned: 0,
        turns: Some(14),
    },
    Program {
        name: "forms/marked/three_deep",
        source: br"// Three marked loops inside one another, with locals at each depth.
// Whole turns: 2.
int main() {
  int s = 1;
  pfor (int i = 0; i < 2; i++) {
    int t = s + i;
    pfor (int j = 0; j < 3; j++) {
      int u = t * 2 + j;
      int k = 0;
      pwhile (k < 2) {
        int v = u + k;
        s += v;
        t++;
        u -= 3;
        k++;
      }
      print(u);
    }
    print(t);
    print(s);
  }
  print(s);
}
",
        input: b"",
        text: b"-4\n1\n6\n7\n37\n70\n75\n80\n44\n517\n517\n",
        returned: 0,
        turns: Some(2),
    },
    Program {
        name: "forms/marked/without_braces",
        source: br"// Marked loops whose bodies are a marked loop or an `if`, without braces.
// Whole turns: 15.
int main() {
  int s = 0;
  pfor (int i = 0; i < 3; i++) pfor (int j = 0; j < 3; j++) pwhile (s % 7 != j) s += i + 1;
  print(s);
  pwhile (s > 0) if (s % 2) s -= 5; else s -= 8;
  print(s);
  pfor (int i = 0; i < 2; i++) for (int j = 0; j < 2; j++) pfor (int k = 0; k < 2; k++) print(i * 4 + j * 2 + k);
  pfor (int i = 0; i < 1; i++) ;
}
",
        input: b"",
        text: b"72\n0\n0\n1\n2\n3\n4\n5\n6\n7\n",
        returned: 0,
        turns: Some(15),
    },
];
