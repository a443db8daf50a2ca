// Made by forms/write_tests.sh from the programs in forms/returns and from what a C compiler makes of them.
// Change those and run the script again, and never this file.

use super::{Program, all_hold};

#[test]
fn programs_hold(rt: HostRuntime) {
    all_hold(&rt, rt.alloc(), &PROGRAMS);
}

const PROGRAMS: [Program<'static>; 17] = [
    Program {
        name: "forms/returns/called_depth_2",
        source: br"// A function returns out of a `while` in its `pfor`.
// Whole turns: 31.
int a[10] = {4, 8, 15, 16, 23, 42, 7, 11, 13, 20};

int pair_of(int sum) {
  pfor (int i = 0; i < 10; i++) {
    int j = i;
    while (j < 9) {
      j++;
      if (a[i] + a[j] == sum) { a[i]++; return i * 10 + j; }
    }
  }
  return -1;
}

int main() {
  print(pair_of(58));
  print(pair_of(33));
  print(pair_of(33));
  print(pair_of(1000));
  print(a[3]);
  return 0;
}
",
        input: b"",
        text: b"35\n89\n-1\n-1\n17\n",
        returned: 0,
        turns: Some(31),
    },
    Program {
        name: "forms/returns/called_depth_3",
        source: br"// A function returns out of a `for` in a `pwhile` in a `for`.
// Whole turns: 44.
int probes;

int triple_of(int sum) {
  for (int i = 1; i < 8; i++) {
    int j = i;
    pwhile (j < 8) {
      for (int k = j; k < 8; k++) {
        probes++;
        if (i * i + j * j + k * k == sum) return i * 100 + j * 10 + k;
        if (k > 6) { if (sum > 140) { return -2; } break; }
      }
      j++;
    }
    print(i);
  }
  return -1;
}

int main() {
  print(triple_of(14));
  print(probes);
  print(triple_of(83));
  print(probes);
  print(triple_of(7));
  print(triple_of(141));
  print(probes);
  return 0;
}
",
        input: b"",
        text: b"123\n9\n1\n2\n357\n70\n1\n2\n3\n4\n5\n6\n7\n-1\n-2\n161\n",
        returned: 0,
        turns: Some(44),
    },
    Program {
        name: "forms/returns/called_pfor",
        source: br"// A function returns out of its `pfor`, and its caller goes on.
// Whole turns: 25.
int find(int k) {
  pfor (int i = 0; i < 9; i++) {
    if (i * i == k) return i;
  }
  return -1;
}

int main() {
  print(find(49));
  print(find(50));
  return find(0) + find(50) * 0;
}
",
        input: b"",
        text: b"7\n-1\n",
        returned: 0,
        turns: Some(25),
    },
    Program {
        name: "forms/returns/called_pwhile",
        source: br"// A function returns carried locals out of its `pwhile`.
// Whole turns: 16.
int power(int base, int past) {
  int p = 1, n = 0;
  pwhile (1) {
    if (p > past) return p + n;
    p *= base;
    n++;
  }
}

int main() {
  print(power(2, 100));
  print(power(3, 0));
  print(power(7, 2400) - power(10, 99999));
  return 0;
}
",
        input: b"",
        text: b"135\n1\n-97600\n",
        returned: 0,
        turns: Some(16),
    },
    Program {
        name: "forms/returns/from_called_in_region",
        source: br"// Functions that the turns call return out of plain loops; the region goes on.
// Whole turns: 6.
int a[8] = {5, 3, 8, 1, 9, 2, 7, 4};

int place_of(int x) {
  for (int i = 0; i < 8; i++) {
    int n = i;
    while (n < 8) {
      if (a[n] == x) return n * 10 + i;
      n += 3;
    }
  }
  return -1;
}

void tell(int x) {
  if (x < 0) { print(-1000); return; }
  for (;;) { x -= 7; if (x < 0) return; print(x); }
}

int main() {
  pfor (int i = 0; i < 6; i++) {
    print(place_of(i));
    tell(place_of(i) - i);
  }
  return 0;
}
",
        input: b"",
        text: b"-1\n-1000\n30\n22\n15\n8\n1\n52\n43\n36\n29\n22\n15\n8\n1\n11\n1\n71\n60\n53\n46\n39\n32\n25\n18\n11\n4\n0\n-1000\n",
        returned: 0,
        turns: Some(6),
    },
    Program {
        name: "forms/returns/from_marked_in_called",
        source: br"// Functions that the turns call return out of marked loops of their own; the region goes on.
// Whole turns: 6.
int a[8] = {5, 3, 8, 1, 9, 2, 7, 4};

int place_of(int x) {
  pfor (int i = 0; i < 8; i++) {
    int n = i;
    pwhile (n < 8) {
      if (a[n] == x) return n * 10 + i;
      n += 3;
    }
  }
  return -1;
}

void tell(int x) {
  if (x < 0) { print(-1000); return; }
  pfor (;;) { x -= 7; if (x < 0) return; print(x); }
}

int main() {
  pfor (int i = 0; i < 6; i++) {
    print(place_of(i));
    tell(place_of(i) - i);
  }
  return 0;
}
",
        input: b"",
        text: b"-1\n-1000\n30\n22\n15\n8\n1\n52\n43\n36\n29\n22\n15\n8\n1\n11\n1\n71\n60\n53\n46\n39\n32\n25\n18\n11\n4\n0\n-1000\n",
        returned: 0,
        turns: Some(6),
    },
    Program {
        name: "forms/returns/main_depth_2",
        source: br"// `return` from `main` out of a `for` in a `pfor`.
// Whole turns: 2.
int main() {
  int s = 0;
  pfor (int i = 0; i < 9; i++) {
    for (int j = 0; j < 4; j++) {
      s += i * j;
      print(s);
      if (s > 7) return s;
    }
  }
  print(0);
  return 0;
}
",
        input: b"",
        text: b"0\n0\n0\n0\n0\n1\n3\n6\n6\n8\n",
        returned: 8,
        turns: Some(2),
    },
    Program {
        name: "forms/returns/main_depth_3",
        source: br"// `return` from `main` out of a `while` in a `pfor` in a `for`.
// Whole turns: 12.
int main() {
  int s = 0;
  for (int i = 0; i < 9; i++) {
    pfor (int j = 0; j < 4; j++) {
      int n = i;
      while (n > 0) {
        n--;
        s += n;
        if (s > 5) { print(s); { return i * 100 + j * 10 + n; } }
      }
    }
    print(s);
  }
  return 0;
}
",
        input: b"",
        text: b"0\n0\n4\n6\n",
        returned: 302,
        turns: Some(12),
    },
    Program {
        name: "forms/returns/main_pfor",
        source: br"// `return` from `main` out of a `pfor`.
// Whole turns: 3.
int main() {
  pfor (int i = 0; i < 9; i++) {
    print(i);
    if (i == 3) return i * 100;
  }
  print(-1);
  return -1;
}
",
        input: b"",
        text: b"0\n1\n2\n3\n",
        returned: 300,
        turns: Some(3),
    },
    Program {
        name: "forms/returns/main_pwhile",
        source: br"// `return` from `main` out of a `pwhile`, of a negative number.
// Whole turns: 4.
int c = 3;

int main(void) {
  int s = 1;
  pwhile (1) {
    s *= c;
    c--;
    print(s);
    if (c < -1) return c - 2147483646;
  }
}
",
        input: b"",
        text: b"3\n6\n6\n0\n0\n",
        returned: -2147483648,
        turns: Some(4),
    },
    Program {
        name: "forms/returns/marked_in_region",
        source: br"// `return` out of a marked loop inside the region leaves the region too.
// Whole turns: 2.
int g;

int search(int sum) {
  pfor (int i = 0; i < 5; i++) {
    pfor (int j = 0; j < 5; j++) {
      g++;
      if (i * 7 + j * 3 == sum) return i * 10 + j;
    }
  }
  return -1;
}

int main() {
  print(search(23));
  print(g);
  return 0;
}
",
        input: b"",
        text: b"23\n14\n",
        returned: 0,
        turns: Some(2),
    },
    Program {
        name: "forms/returns/of_plain_loop",
        source: br"// `return` from `main` out of a plain loop, behind regions.
// Whole turns: 6.
int main() {
  int s = 0;
  for (int i = 0; i < 9; i++) {
    pfor (int j = 0; j < 3; j++) s += i + j;
    print(s);
    if (i == 1) return s;
  }
  return 0;
}
",
        input: b"",
        text: b"3\n9\n",
        returned: 9,
        turns: Some(6),
    },
    Program {
        name: "forms/returns/through_blocks",
        source: br"// `return` out of a region from blocks, `if`s and `else`s.
// Whole turns: 8.
int g;

int sort_of(int x) {
  pfor (int i = 0; ; i++) {
    { g++; if (x == i) { { return 100 + i; } } else if (x < 0) return 200; else { if (i > 4) { g += 10; return 300; } } }
    { ; }
  }
}

int main() {
  print(sort_of(0));
  print(sort_of(3));
  print(sort_of(-1));
  print(sort_of(9));
  print(g);
  return 0;
}
",
        input: b"",
        text: b"100\n103\n200\n300\n22\n",
        returned: 0,
        turns: Some(8),
    },
    Program {
        name: "forms/returns/through_calls",
        source: br"// Values that return through many calls at once: a call's own value, a number, a sum, a sum with a number, a product; and others behind
// which a function still does something.
int deepest;
int shares[8];

int same(int n) {
  if (n == 0) {
    return 7;
  }
  return same(n - 1);
}

int sum(int n) {
  if (n == 0) {
    return 0;
  }
  return n + sum(n - 1);
}

int count(int n) {
  if (n == 0) {
    return 0;
  }
  return count(n - 1) + 1;
}

int product(int n) {
  if (n == 0) {
    return 1;
  }
  return n * product(n - 1);
}

int noted(int n) {
  if (n == 0) {
    return 0;
  }
  int below = noted(n - 1);
  deepest = deepest + n;
  return below + deepest;
}

int odd_or_even(int n, int odd) {
  if (n == 0) {
    return odd;
  }
  if (odd) {
    return odd_or_even(n - 1, 0);
  }
  return odd_or_even(n - 1, 1) + 0;
}

int common(int x, int y) {
  if (y == 0) {
    return x;
  }
  return common(y, x % y);
}

int main() {
  int s = 0;
  for (int n = 0; n < 61; n = n + 20) {
    print(same(n));
    print(sum(n));
    print(count(n));
    print(odd_or_even(n, 0));
  }
  print(product(12));
  print(noted(9));
  print(deepest);
  pfor (int i = 0; i < 8; i++) {
    shares[i] = common(360, i * 15 + 1) + sum(i);
    s = s + count(i) + common(i * 6, 84);
  }
  for (int i = 0; i < 8; i++) {
    print(shares[i]);
  }
  print(s);
  return sum(10) + same(3);
}
",
        input: b"",
        text: b"7\n0\n0\n0\n7\n210\n20\n0\n7\n820\n40\n0\n7\n1830\n60\n0\n479001600\n165\n45\n1\n9\n4\n8\n11\n19\n22\n30\n208\n",
        returned: 62,
        turns: None,
    },
    Program {
        name: "forms/returns/value_of_call",
        source: br"// `return` out of a region, of a value that calls a function with a region of its own.
// Whole turns: 9.
int sum_to(int n) {
  int s = 0;
  pfor (int i = 1; i <= n; i++) s += i;
  return s;
}

int first_over(int x) {
  pfor (int i = 0; ; i++) {
    if (i * i > x) return sum_to(i) * 10 + i;
  }
}

int main() {
  print(sum_to(4));
  print(first_over(20));
  return 0;
}
",
        input: b"",
        text: b"10\n155\n",
        returned: 0,
        turns: Some(9),
    },
    Program {
        name: "forms/returns/void_depth_2",
        source: br"// A void function returns out of a `for` in its `pwhile`.
// Whole turns: 15.
int g;

void fill(int x) {
  pwhile (g < 100) {
    g += 5;
    for (int i = 0; i < x; i++) {
      g += i;
      if (g > 40 + x) return;
    }
    print(g);
  }
  print(-g);
}

int main() {
  fill(3);
  fill(1);
  print(g);
  fill(0);
  print(g);
  return 0;
}
",
        input: b"",
        text: b"8\n16\n24\n32\n40\n50\n55\n60\n65\n70\n75\n80\n85\n90\n95\n100\n-100\n100\n",
        returned: 0,
        turns: Some(15),
    },
    Program {
        name: "forms/returns/void_pfor",
        source: br"// A void function returns out of its `pfor`.
// Whole turns: 5.
int g;

void until(int x) {
  int s = 0;
  pfor (int i = 0; i < 4; i++) {
    s += i;
    g += s;
    if (i == x) return;
    print(g);
  }
  print(-s);
}

int main() {
  until(1);
  until(9);
  until(0);
  print(g);
  return 0;
}
",
        input: b"",
        text: b"0\n1\n2\n5\n11\n-6\n11\n",
        returned: 0,
        turns: Some(5),
    },
];
