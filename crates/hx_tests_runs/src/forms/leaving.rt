// Made by forms/write_tests.sh from the programs in forms/leaving and from what a C compiler makes of them.
// Change those and run the script again, and never this file.

use super::{Program, all_hold};

#[test]
fn programs_hold(rt: HostRuntime) {
    all_hold(&rt, rt.alloc(), &PROGRAMS);
}

const PROGRAMS: [Program<'static>; 23] = [
    Program {
        name: "forms/leaving/break_at_once",
        source: br"// `break` in the first turn, and a loop whose body is only `break` or only `continue`.
// Whole turns: 4.
int main() {
  int n = 7;
  pfor (int i = 0; i < 5; i++) break;
  pwhile (1) { n *= 2; break; }
  pfor (int i = 0; i < 4; i++) continue;
  pfor (;;) { { { break; } } }
  print(n);
  return 0;
}
",
        input: b"",
        text: b"14\n",
        returned: 0,
        turns: Some(4),
    },
    Program {
        name: "forms/leaving/break_in_blocks",
        source: br"// `break` out of a `pfor`, from blocks and `if`s.
// Whole turns: 4.
int main() {
  int s = 0;
  pfor (int i = 0; i < 9; i++) {
    {
      int x = i * 2;
      if (x > 3) {
        { { if (x == 8) { print(x); break; } else { s += x; } } }
        s += 100;
      } else s++;
    }
    print(s);
  }
  print(s);
  return 0;
}
",
        input: b"",
        text: b"1\n2\n106\n212\n8\n212\n",
        returned: 0,
        turns: Some(4),
    },
    Program {
        name: "forms/leaving/break_pfor",
        source: br"// `break` out of a `pfor`.
// Whole turns: 4.
int main() {
  int s = 0;
  pfor (int i = 0; i < 9; i++) {
    s += 10;
    if (i == 4) break;
    s += i;
    print(i);
  }
  print(s);
}
",
        input: b"",
        text: b"0\n1\n2\n3\n56\n",
        returned: 0,
        turns: Some(4),
    },
    Program {
        name: "forms/leaving/break_pwhile",
        source: br"// `break` out of a `pwhile`.
// Whole turns: 5.
int c;

int main() {
  int n = 0;
  pwhile (1) {
    n++;
    c += n;
    if (c > 20) break;
    print(c);
  }
  print(n);
  print(c);
  return n;
}
",
        input: b"",
        text: b"1\n3\n6\n10\n15\n6\n21\n",
        returned: 6,
        turns: Some(5),
    },
    Program {
        name: "forms/leaving/continue_in_blocks",
        source: br"// `continue` in a `pwhile`, from blocks and `if`s.
// Whole turns: 7.
int a[8];

int main() {
  int n = 0;
  pwhile (n < 7) {
    int m = n;
    n++;
    { if (m % 3 == 1) { { a[m] = 10; continue; } a[m] = 20; } else if (m % 3 == 2) { a[m] = 30; { continue; } } }
    a[m] += m + 1;
    print(m);
  }
  for (int i = 0; i < 8; i++) print(a[i]);
  return 0;
}
",
        input: b"",
        text: b"0\n3\n6\n1\n10\n30\n4\n10\n30\n7\n0\n",
        returned: 0,
        turns: Some(7),
    },
    Program {
        name: "forms/leaving/continue_pfor",
        source: br"// `continue` in a `pfor` goes on with its step.
// Whole turns: 6.
int main() {
  int s = 0;
  pfor (int i = 0; i < 6; i++) {
    if (i % 2) continue;
    print(i);
    s += i;
  }
  print(s);
}
",
        input: b"",
        text: b"0\n2\n4\n6\n",
        returned: 0,
        turns: Some(6),
    },
    Program {
        name: "forms/leaving/continue_pwhile",
        source: br"// `continue` in a `pwhile` goes on with its test.
// Whole turns: 6.
int main() {
  int n = 0, s = 0;
  pwhile (n < 6) {
    n++;
    if (n == 3) continue;
    print(n);
    s += n;
  }
  print(s);
}
",
        input: b"",
        text: b"1\n2\n4\n5\n6\n18\n",
        returned: 0,
        turns: Some(6),
    },
    Program {
        name: "forms/leaving/for_in_pfor",
        source: br"// `break` and `continue` at both depths of a `for` in a `pfor`.
// Whole turns: 5.
int main() {
  int s = 0;
  pfor (int i = 0; i < 9; i++) {
    if (i == 2) continue;
    for (int j = 0; j < 9; j++) {
      if (j == 1) continue;
      if (j > i) break;
      s += i * 10 + j;
      print(s);
    }
    if (i == 5) break;
    s++;
  }
  print(s);
  return 0;
}
",
        input: b"",
        text: b"0\n11\n42\n74\n107\n148\n190\n233\n277\n328\n380\n433\n487\n542\n542\n",
        returned: 0,
        turns: Some(5),
    },
    Program {
        name: "forms/leaving/for_in_pwhile",
        source: br"// `break` and `continue` at both depths of a `for` in a `pwhile`.
// Whole turns: 6.
int main() {
  int n = 0, s = 0;
  pwhile (n < 20) {
    n++;
    if (n == 3) continue;
    for (int j = n; ; j--) {
      if (j == 4) continue;
      if (j == 0) break;
      s = s * 2 + j;
    }
    print(s);
    if (n == 7) break;
  }
  print(n);
  return 0;
}
",
        input: b"",
        text: b"1\n9\n89\n1481\n47545\n3043257\n7\n",
        returned: 0,
        turns: Some(6),
    },
    Program {
        name: "forms/leaving/marked_at_three_depths",
        source: br"// `break` and `continue` at three depths, each loop marked.
// Whole turns: 4.
int main() {
  int s = 0;
  pfor (int i = 0; i < 7; i++) {
    pfor (int j = 0; j < 4; j++) {
      int n = 0;
      pwhile (1) {
        n++;
        if (n == 2) continue;
        if (n > i) break;
        s += 100 * i + 10 * j + n;
      }
      if (j == 1) continue;
      print(s);
      if (j == i) break;
      s++;
    }
    if (i == 1) continue;
    print(-s);
    if (i == 4) break;
  }
  print(s);
  return 0;
}
",
        input: b"",
        text: b"0\n0\n101\n334\n466\n668\n1101\n-1101\n1705\n2974\n3639\n-3639\n4847\n7354\n8653\n-8654\n8654\n",
        returned: 0,
        turns: Some(4),
    },
    Program {
        name: "forms/leaving/pfor_in_for",
        source: br"// `break` and `continue` at both depths of a `pfor` in a `for`.
// Whole turns: 14.
int main() {
  int s = 0;
  for (int i = 0; i < 6; i++) {
    if (i == 1) continue;
    pfor (int j = 0; j < 6; j++) {
      if (j == 1) continue;
      if (j > i) break;
      s += i * 10 + j;
    }
    print(s);
    if (i == 4) break;
    s++;
  }
  print(s);
  return 0;
}
",
        input: b"",
        text: b"0\n43\n139\n309\n309\n",
        returned: 0,
        turns: Some(14),
    },
    Program {
        name: "forms/leaving/pfor_in_pfor",
        source: br"// `break` and `continue` at both depths of a `pfor` in a `pfor`.
// Whole turns: 5.
int main() {
  int s = 0;
  pfor (int i = 0; i < 9; i++) {
    if (i == 2) continue;
    pfor (int j = 0; j < 9; j++) {
      if (j == 1) continue;
      if (j > i) break;
      s += i * 10 + j;
      print(s);
    }
    if (i == 5) break;
    s++;
  }
  print(s);
  return 0;
}
",
        input: b"",
        text: b"0\n11\n42\n74\n107\n148\n190\n233\n277\n328\n380\n433\n487\n542\n542\n",
        returned: 0,
        turns: Some(5),
    },
    Program {
        name: "forms/leaving/pfor_in_plain_in_plain",
        source: br"// `break` and `continue` at three depths, the innermost loop marked.
// Whole turns: 54.
int main() {
  int s = 0, n = 0;
  while (n < 5) {
    n++;
    for (int j = 0; j < 5; j++) {
      if (j == n) continue;
      pfor (int i = 0; ; i++) {
        if (i == j) continue;
        if (i > n) break;
        s += 100 * n + 10 * j + i;
      }
      if (s % 3 == 0) { s++; continue; }
      print(s);
      if (j > n) break;
    }
    if (n == 2) continue;
    print(-s);
    if (n == 4) break;
  }
  print(s);
  return 0;
}
",
        input: b"",
        text: b"101\n604\n-604\n1007\n1429\n2122\n3028\n4928\n-6295\n-12973\n12973\n",
        returned: 0,
        turns: Some(54),
    },
    Program {
        name: "forms/leaving/pfor_in_pwhile",
        source: br"// `break` and `continue` at both depths of a `pfor` in a `pwhile`.
// Whole turns: 6.
int main() {
  int n = 0, s = 0;
  pwhile (n < 20) {
    n++;
    if (n == 3) continue;
    pfor (int j = n; ; j--) {
      if (j == 4) continue;
      if (j == 0) break;
      s = s * 2 + j;
    }
    print(s);
    if (n == 7) break;
  }
  print(n);
  return 0;
}
",
        input: b"",
        text: b"1\n9\n89\n1481\n47545\n3043257\n7\n",
        returned: 0,
        turns: Some(6),
    },
    Program {
        name: "forms/leaving/pfor_in_while",
        source: br"// `break` and `continue` at both depths of a `pfor` in a `while`.
// Whole turns: 14.
int main() {
  int n = 0, s = 0;
  while (n < 9) {
    n++;
    pfor (int j = 0; j < 9; j += 2) {
      if (j == n) continue;
      if (j > n + 1) break;
      s = s * 3 + j;
    }
    if (n == 2) continue;
    print(s);
    if (n == 5) break;
  }
  print(n);
  return 0;
}
",
        input: b"",
        text: b"2\n172\n1550\n125586\n5\n",
        returned: 0,
        turns: Some(14),
    },
    Program {
        name: "forms/leaving/plain_in_plain_in_pfor",
        source: br"// `break` and `continue` at three depths, the outermost loop marked.
// Whole turns: 4.
int main() {
  int s = 0;
  pfor (int i = 0; i < 7; i++) {
    for (int j = 0; j < 4; j++) {
      int n = 0;
      while (1) {
        n++;
        if (n == 2) continue;
        if (n > i) break;
        s += 100 * i + 10 * j + n;
      }
      if (j == 1) continue;
      print(s);
      if (j == i) break;
      s++;
    }
    if (i == 1) continue;
    print(-s);
    if (i == 4) break;
  }
  print(s);
  return 0;
}
",
        input: b"",
        text: b"0\n0\n101\n334\n466\n668\n1101\n-1101\n1705\n2974\n3639\n-3639\n4847\n7354\n8653\n-8654\n8654\n",
        returned: 0,
        turns: Some(4),
    },
    Program {
        name: "forms/leaving/plain_in_pwhile_in_plain",
        source: br"// `break` and `continue` at three depths, the middle loop marked.
// Whole turns: 10.
int main() {
  int s = 0;
  for (int i = 1; i < 7; i++) {
    int m = 0;
    pwhile (m < 4) {
      m++;
      for (int j = 0; ; j++) {
        if (j == m) continue;
        if (j > i) break;
        s += 100 * i + 10 * j + m;
      }
      if (m == 2) continue;
      print(s);
      if (s > 4000) break;
      s++;
    }
    if (i == 2) continue;
    print(-s);
    if (i == 4) break;
  }
  print(s);
  return 0;
}
",
        input: b"",
        text: b"101\n532\n751\n-752\n1174\n2228\n2871\n3825\n5711\n-5711\n7405\n-7405\n7405\n",
        returned: 0,
        turns: Some(10),
    },
    Program {
        name: "forms/leaving/pwhile_in_for",
        source: br"// `break` and `continue` at both depths of a `pwhile` in a `for`.
// Whole turns: 8.
int main() {
  int s = 0;
  for (int i = 0; ; i++) {
    int j = i;
    pwhile (j > 0) {
      j--;
      if (j == 2) continue;
      if (s > 60) break;
      s += i + 10 * j;
    }
    print(s);
    if (i == 2) continue;
    s++;
    if (i == 5) break;
  }
  print(s);
  return 0;
}
",
        input: b"",
        text: b"0\n2\n17\n33\n68\n69\n70\n",
        returned: 0,
        turns: Some(8),
    },
    Program {
        name: "forms/leaving/pwhile_in_pfor",
        source: br"// `break` and `continue` at both depths of a `pwhile` in a `pfor`.
// Whole turns: 3.
int main() {
  int s = 0;
  pfor (int i = 1; i < 9; i++) {
    int j = 0;
    pwhile (j < 9) {
      j++;
      if (j == 2) continue;
      if (j > i) break;
      s += i * 10 + j;
    }
    if (i == 3) continue;
    print(s);
    if (s > 200) { s = -s; break; }
    s += j;
  }
  print(s);
  return 0;
}
",
        input: b"",
        text: b"11\n35\n230\n-230\n",
        returned: 0,
        turns: Some(3),
    },
    Program {
        name: "forms/leaving/pwhile_in_pwhile",
        source: br"// `break` and `continue` at both depths of a `pwhile` in a `pwhile`.
// Whole turns: 4.
int c;

int main() {
  int n = 0;
  pwhile (c < 1000) {
    c += 3;
    int m = 0;
    pwhile (1) {
      m++;
      if (m % 2) { n++; continue; }
      c += m;
      if (m > n) break;
    }
    print(c);
    print(m);
    if (n < 9) continue;
    c *= 2;
    if (n > 20) break;
  }
  print(n);
  print(c);
  return 0;
}
",
        input: b"",
        text: b"5\n2\n14\n4\n37\n8\n112\n16\n499\n32\n31\n998\n",
        returned: 0,
        turns: Some(4),
    },
    Program {
        name: "forms/leaving/pwhile_in_while",
        source: br"// `break` and `continue` at both depths of a `pwhile` in a `while`.
// Whole turns: 8.
int c = 1;

int main() {
  int n = 0;
  while (1) {
    pwhile (c % 7) {
      c++;
      if (c == 5) { n += 10; continue; }
      if (c % 4 == 0) break;
      n++;
    }
    print(c);
    c++;
    if (c < 9) continue;
    print(n);
    if (c > 14) break;
  }
  return n;
}
",
        input: b"",
        text: b"4\n7\n12\n7\n14\n8\n",
        returned: 8,
        turns: Some(8),
    },
    Program {
        name: "forms/leaving/while_in_pfor",
        source: br"// `break` and `continue` at both depths of a `while` in a `pfor`.
// Whole turns: 3.
int main() {
  int s = 0;
  pfor (int i = 1; i < 9; i++) {
    int j = 0;
    while (j < 9) {
      j++;
      if (j == 2) continue;
      if (j > i) break;
      s += i * 10 + j;
    }
    if (i == 3) continue;
    print(s);
    if (s > 200) { s = -s; break; }
    s += j;
  }
  print(s);
  return 0;
}
",
        input: b"",
        text: b"11\n35\n230\n-230\n",
        returned: 0,
        turns: Some(3),
    },
    Program {
        name: "forms/leaving/while_in_pwhile",
        source: br"// `break` and `continue` at both depths of a `while` in a `pwhile`.
// Whole turns: 4.
int c;

int main() {
  int n = 0;
  pwhile (c < 1000) {
    c += 3;
    int m = 0;
    while (1) {
      m++;
      if (m % 2) { n++; continue; }
      c += m;
      if (m > n) break;
    }
    print(c);
    print(m);
    if (n < 9) continue;
    c *= 2;
    if (n > 20) break;
  }
  print(n);
  print(c);
  return 0;
}
",
        input: b"",
        text: b"5\n2\n14\n4\n37\n8\n112\n16\n499\n32\n31\n998\n",
        returned: 0,
        turns: Some(4),
    },
];
