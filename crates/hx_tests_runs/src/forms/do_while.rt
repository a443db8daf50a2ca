// Made by forms/write_tests.sh from the programs in forms/do_while and from what a C compiler makes of them.
// Change those and run the script again, and never this file.

use super::{Program, all_hold};

#[test]
fn programs_hold(rt: HostRuntime) {
    all_hold(&rt, rt.alloc(), &PROGRAMS);
}

const PROGRAMS: [Program<'static>; 14] = [
    Program {
        name: "forms/do_while/among_others",
        source: br"// A `do` in a `while` and in a `for`, and both in a `do`.
int main() {
  int s = 0;
  int i = 0;
  while (i < 4) {
    int j = i;
    do {
      if (j == 3) break;
      s += j;
      j++;
    } while (j < 5);
    i++;
  }
  print(s);
  for (int a = 0; a < 4; a++) {
    int b = 0;
    do {
      b++;
      if (b == a) continue;
      s = s * 3 + b;
      s %= 1000;
    } while (b < 3);
    if (a == 2) continue;
    print(s);
  }
  int x = 0;
  do {
    for (int y = 0; y < 5; y++) {
      if (y == x) continue;
      if (y > 3) break;
      s += y;
    }
    int z = 0;
    while (z < x) {
      z++;
      if (z == 2) continue;
      s -= z;
    }
    x++;
    if (s > 1050) break;
  } while (x < 9);
  print(s);
  print(x);
  return 0;
}
",
        input: b"",
        text: b"8\n234\n115\n374\n316\n9\n",
        returned: 0,
        turns: None,
    },
    Program {
        name: "forms/do_while/called_test",
        source: br"// The test is a call, and is made after each turn of the body.
int n;

int more(int most) {
  n++;
  print(n * 10);
  return n < most;
}

int main() {
  do print(n); while (more(3));
  n = 0;
  pfor (int i = 0; i < 2; i++) {
    int k = 0;
    do { k += 2; if (k == 4) continue; print(-k); } while (more(i + 4));
  }
  return 0;
}
",
        input: b"",
        text: b"0\n10\n1\n20\n2\n30\n-2\n10\n20\n-6\n30\n-8\n40\n-2\n50\n",
        returned: 0,
        turns: None,
    },
    Program {
        name: "forms/do_while/carried",
        source: br"// A local that the turns assign in a `do` alone, one in its test alone, and one that they declare there.
// Whole turns: 4.
int main() {
  int s = 1;
  int most = 5;
  int last = 0;
  pfor (int i = 0; i < 4; i++) {
    int j = 0;
    do {
      int before = s;
      s += j;
      last = before;
      j++;
    } while (j < most - i);
  }
  print(s);
  print(most);
  print(last);
  return 0;
}
",
        input: b"",
        text: b"21\n5\n20\n",
        returned: 0,
        turns: Some(4),
    },
    Program {
        name: "forms/do_while/continues",
        source: br"// `continue` goes to the test, and `break` behind it.
int main() {
  int i = 0;
  do {
    i++;
    if (i == 2) continue;
    if (i > 5) break;
    print(i);
  } while (i < 9);
  print(i);
  int n = 0;
  do {
    n += 3;
    continue;
  } while (n < 10);
  print(n);
  do {
    n--;
    break;
  } while (n);
  print(n);
  return 0;
}
",
        input: b"",
        text: b"1\n3\n4\n5\n6\n12\n11\n",
        returned: 0,
        turns: None,
    },
    Program {
        name: "forms/do_while/depths",
        source: br"// A `pfor` in a `do` in a `pfor`: the inner one is no region, and its turns don't count.
// Whole turns: 3.
int a[4];

int main() {
  pfor (int i = 0; i < 3; i++) {
    int j = 0;
    do {
      pfor (int k = 0; k < 4; k++) {
        if (k == i) continue;
        a[k] += j + 1;
        if (a[k] > 5) break;
      }
      j++;
      if (j == 2) continue;
      if (a[0] > 8) break;
    } while (j < 3);
    print(a[0] + 10 * a[1]);
  }
  for (int k = 0; k < 4; k++) print(a[k]);
  return 0;
}
",
        input: b"",
        text: b"60\n66\n72\n12\n6\n6\n4\n",
        returned: 0,
        turns: Some(3),
    },
    Program {
        name: "forms/do_while/in_pfor",
        source: br"// `break` and `continue` at both depths of a `do` in a `pfor`.
// Whole turns: 5.
int a[10];

int main() {
  int s = 0;
  pfor (int i = 0; i < 9; i++) {
    int j = 0;
    do {
      j++;
      if (j == 2) continue;
      if (j > i) break;
      a[j] += i;
      s += i * 10 + j;
    } while (j < 6);
    if (i == 3) continue;
    print(s);
    if (s > 350) break;
    s += j;
  }
  print(s);
  for (int i = 0; i < 10; i++) print(a[i]);
  return 0;
}
",
        input: b"",
        text: b"0\n12\n36\n231\n449\n449\n0\n15\n0\n12\n9\n5\n0\n0\n0\n0\n",
        returned: 0,
        turns: Some(5),
    },
    Program {
        name: "forms/do_while/in_pwhile",
        source: br"// A `do` in a `pwhile`: what it assigns is carried, what it declares isn't.
// Whole turns: 6.
int main() {
  int n = 1;
  int s = 0;
  int step = 3;
  pwhile (n < 60) {
    int k = 0;
    do {
      int d = k * step;
      k++;
      if (d % 2) continue;
      s += d;
      if (s > n) break;
    } while (k < 5);
    n = n * 2 + (s & 1);
    print(s);
  }
  print(n);
  print(s);
  return 0;
}
",
        input: b"",
        text: b"6\n6\n6\n12\n18\n36\n64\n36\n",
        returned: 0,
        turns: Some(6),
    },
    Program {
        name: "forms/do_while/locals",
        source: br"// Locals of the body begin anew in each turn, and the test sees those around it.
int x = 7;

int main() {
  int n = 0;
  do {
    int x = n * 2;
    int y = 0;
    y += x;
    n++;
    print(y);
  } while (n < x - 3);
  {
    int x = 2;
    do {
      int n = x;
      x--;
      print(n);
    } while (x + n > 3);
    print(x);
  }
  print(x);
  return 0;
}
",
        input: b"",
        text: b"0\n2\n4\n6\n2\n1\n0\n-1\n7\n",
        returned: 0,
        turns: None,
    },
    Program {
        name: "forms/do_while/nested",
        source: br"// `break` and `continue` at each depth of a `do` in a `do` in a `do`.
int main() {
  int i = 0;
  do {
    int j = 0;
    do {
      int k = 0;
      do {
        k++;
        if (k == 2) continue;
        if (k > i + j) break;
        print(i * 100 + j * 10 + k);
      } while (k < 4);
      j++;
      if (j == 2) continue;
      if (j > i + 1) break;
      print(j);
    } while (j < 4);
    i++;
    if (i == 2) continue;
    if (i == 4) break;
    print(-i);
  } while (i < 6);
  print(i);
  return 0;
}
",
        input: b"",
        text: b"1\n11\n21\n-1\n101\n1\n111\n121\n123\n201\n1\n211\n213\n221\n223\n224\n3\n231\n233\n234\n-3\n301\n303\n1\n311\n313\n314\n321\n323\n324\n3\n331\n333\n334\n4\n4\n",
        returned: 0,
        turns: None,
    },
    Program {
        name: "forms/do_while/once",
        source: br"// The body goes before each test: once where the test fails at once.
int g;

int main() {
  do print(1); while (0);
  do { g++; print(g); } while (g < 3);
  do ; while (g < 0);
  int i = 10;
  do i--; while (i > 4);
  print(i);
  return 0;
}
",
        input: b"",
        text: b"1\n1\n2\n3\n4\n",
        returned: 0,
        turns: None,
    },
    Program {
        name: "forms/do_while/pfor_in_do",
        source: br"// A marked loop in a `do`, left in each way.
// Whole turns: 9.
int a[8];

int main() {
  int n = 0;
  do {
    pfor (int i = 0; i < 4; i++) {
      if (i == n) continue;
      if (i > n + 1) break;
      a[i] += n + 1;
    }
    n++;
    if (n == 2) continue;
    if (a[0] > 4) break;
    print(a[0] + a[1] * 10 + a[2] * 100 + a[3] * 1000);
  } while (n < 3);
  print(n);
  for (int i = 0; i < 8; i++) print(a[i]);
  return 0;
}
",
        input: b"",
        text: b"10\n3\n5\n4\n2\n3\n0\n0\n0\n0\n",
        returned: 0,
        turns: Some(9),
    },
    Program {
        name: "forms/do_while/pwhile_in_do",
        source: br"// A `pwhile` in a `do`, and a `do` in that.
// Whole turns: 9.
int c;

int main() {
  int i = 0;
  do {
    int t = 0;
    pwhile (t < 3) {
      int u = 0;
      do {
        c += t + u;
        u++;
      } while (u < i);
      t++;
    }
    print(c);
    i++;
  } while (i < 3);
  return 0;
}
",
        input: b"",
        text: b"3\n6\n15\n",
        returned: 0,
        turns: Some(9),
    },
    Program {
        name: "forms/do_while/returns",
        source: br"// `return` out of a `do`: outside a region, in one, and in a function that one calls.
int first(int n) {
  do {
    if (n % 7 == 0) return n;
    n++;
  } while (n < 100);
  return -1;
}

int found(int n) {
  pfor (int i = 0; i < 9; i++) {
    int j = 0;
    do {
      if (i * j == n) return i * 10 + j;
      j++;
    } while (j < 9);
  }
  return -1;
}

void shows(int n) {
  do {
    if (n == 3) return;
    print(n);
    n--;
  } while (n > 0);
  print(99);
}

int main() {
  print(first(15));
  print(first(98));
  print(first(99));
  print(found(15));
  print(found(64));
  print(found(67));
  pfor (int i = 10; i < 13; i++) print(first(i));
  shows(5);
  shows(2);
  return 0;
}
",
        input: b"",
        text: b"21\n98\n-1\n35\n88\n-1\n14\n14\n14\n5\n4\n2\n1\n99\n",
        returned: 0,
        turns: None,
    },
    Program {
        name: "forms/do_while/without_braces",
        source: br"// Bodies without braces: an `if` with an `else`, a loop, another `do`.
int main() {
  int a = 0;
  do if (a % 2) a += 3; else a += 1; while (a < 20);
  print(a);
  do while (a > 10) a -= 4; while (a > 9);
  print(a);
  do do a++; while (a % 3); while (a % 5);
  print(a);
  if (a > 3) do a -= 2; while (a > 3); else do a++; while (a < 3);
  print(a);
  do for (int i = 0; i < 3; i++) a += i; while (a < 30);
  print(a);
  return 0;
}
",
        input: b"",
        text: b"20\n8\n15\n3\n30\n",
        returned: 0,
        turns: None,
    },
];
