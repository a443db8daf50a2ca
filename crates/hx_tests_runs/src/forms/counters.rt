// Made by forms/write_tests.sh from the programs in forms/counters and from what a C compiler makes of them.
// Change those and run the script again, and never this file.

use super::{Program, all_hold};

#[test]
fn programs_hold(rt: HostRuntime) {
    all_hold(&rt, rt.alloc(), &PROGRAMS);
}

const PROGRAMS: [Program<'static>; 18] = [
    Program {
        name: "forms/counters/broken",
        source: br"// Loops that `break` leaves, from a block and from an inner `if`, and their counters behind them.
// Whole turns: 7.
int a[10] = {3, 1, 4, 1, 5, 9, 2, 6, 5, 3};

int main() {
  int i;
  pfor (i = 0; i < 10; i++) {
    if (a[i] == 9) break;
    a[i] = i;
  }
  print(i);
  pfor (i = 9; i >= 0; i -= 2) {
    {
      int t = a[i];
      if (t > 6) { break; }
      if (t == 5) { print(t); continue; }
      print(t * 10);
    }
  }
  print(i);
  pfor (i = 2; ; i += 3) {
    break;
  }
  print(i);
  return 0;
}
",
        input: b"",
        text: b"5\n30\n60\n5\n2\n",
        returned: 0,
        turns: Some(7),
    },
    Program {
        name: "forms/counters/carried_beside",
        source: br"// A counter beside carried and copied locals, and a sum that each turn needs of the one before.
int main() {
  int s = 0;
  int k = 3;
  int last = -1;
  pfor (int i = 0; i < k; i++) s += i;
  print(s);
  pfor (int i = 10; i > k; i -= 2) {
    s = s * 2 + i;
    last = i;
  }
  print(s);
  print(last);
  pfor (int i = 0, t = 5; i < k; i++) {
    t += i;
    print(t);
  }
  return 0;
}
// Whole turns: 10.
",
        input: b"",
        text: b"3\n176\n4\n5\n6\n8\n",
        returned: 0,
        turns: Some(10),
    },
    Program {
        name: "forms/counters/carried_sum",
        source: br"// A sum is carried, a limit copied, and the counter computed; then a counter that begins with what a call gives.
// Whole turns: 16.
int first(int n) { return n * n - 4; }

int main() {
  int s = 0;
  int k = 3;
  pfor (int i = 0; i < k; i++) s += i;
  print(s);
  int i;
  pfor (i = first(k); i < 15; i += 2) s += i;
  print(s);
  pfor (i = s - 42; i > -2; i--) { s = s - i; }
  print(s);
  print(i);
  return 0;
}
",
        input: b"",
        text: b"3\n48\n28\n-2\n",
        returned: 0,
        turns: Some(16),
    },
    Program {
        name: "forms/counters/down_behind",
        source: br"// A counter that is declared outside goes down by 4, and is used behind its loop.
// Whole turns: 2.
int main() {
  int i;
  pfor (i = 10; i > 4; i -= 4) emit(65);
  print(i);
  return 0;
}
",
        input: b"",
        text: b"AA2\n",
        returned: 0,
        turns: Some(2),
    },
    Program {
        name: "forms/counters/first_tests",
        source: br"// Tests that turns begin with, less and less or equal: of counters and of carried locals, against a number, a local that the turns
// only read and one that they assign, at the greatest number, and never. Regions that are opened again and again, by loops and by
// a function.
// Whole turns: 123.
int cells[12];

int below(int bound) {
  int sum = 0;
  pfor (int k = 0; k < bound; k++) sum = sum + cells[k];
  return sum;
}

int main() {
  int i = 0;
  pwhile (i <= 11) {
    cells[i] = i + 1;
    i = i + 1;
  }
  print(cells[11]);

  int bound = 9;
  int sum = 0;
  i = 2;
  pwhile (i < bound) {
    sum = sum * 3 + i;
    i = i + 2;
  }
  print(sum);
  print(i);

  i = 3;
  pwhile (i <= bound) {
    i = i + 3;
    sum = sum + i;
  }
  print(sum);

  i = 0;
  pwhile (i < bound) {
    bound = bound - 1;
    i = i + 2;
    sum = sum + bound;
  }
  print(bound);
  print(sum);

  pfor (int k = 0; k <= bound; k++) sum = sum + k;
  print(sum);
  pfor (int k = 3; k <= bound; k++) bound = bound - 1;
  print(bound);

  int most = 2147483647;
  i = 2147483645;
  pwhile (i <= most) {
    sum = sum + 1;
    if (i == most) break;
    i = i + 1;
  }
  print(sum);
  pfor (int k = 2147483644; k <= 2147483646; k++) sum = sum + 1;
  print(sum);

  int least = -2147483647 - 1;
  i = least;
  pwhile (i < least) sum = 0;
  pwhile (i <= least) i = i + 1;
  print(i + 2147483647);

  int a = 1;
  int b = 2;
  int c = 3;
  int d = 4;
  int e = 5;
  int f = 6;
  int g = 7;
  int h = 8;
  i = 0;
  pwhile (i < h) {
    i = i + a;
    sum = sum + b * c - d + e * f - g;
  }
  print(sum);

  int r = 0;
  while (r < 12) {
    sum = sum - below(r);
    r = r + 1;
  }
  print(sum);
  r = 0;
  while (r < 4) {
    pfor (int k = r; k < 7; k = k + 2) cells[k] = cells[k] + r;
    r = r + 1;
  }
  print(cells[0] + cells[2] + cells[3] + cells[5] + cells[6]);
  return 0;
}
",
        input: b"",
        text: b"12\n116\n10\n143\n6\n164\n185\n4\n188\n191\n0\n391\n105\n33\n",
        returned: 0,
        turns: Some(123),
    },
    Program {
        name: "forms/counters/last_words",
        source: br"// Turns whose last words are an element, a value, a sum with a number and a sum of two locals; and tests of a counter that hold
// in each turn, in none, in some, against a local and at a bound.
// Whole turns: 85.
int next[10];
int sums[10];

int twice(int n) {
  return n + n;
}

int main() {
  int i = 0;
  while (i < 10) { next[i] = (i + 3) % 10; i++; }

  int seen = 0;
  pfor (int at = 4; at != 1; at = next[at]) seen = seen * 10 + at;
  print(seen);

  int a = 0;
  int b = 1;
  pwhile (b < 1000) {
    int c = a + b;
    a = b;
    b = c;
  }
  print(a);
  print(b);

  int down = 5;
  int steps = 0;
  pwhile (down != 0) {
    steps = steps + down;
    if (down < 3) down = 1;
    else down = down - 1;
    if (down == 1) down = 0;
  }
  print(steps);

  int width = 3;
  int sum = 0;
  pfor (int k = 0; k < 20; k = k + width) sum = sum + k;
  print(sum);
  pfor (int k = 20; k > 0; k = k - 3) sum = sum + k;
  print(sum);

  pfor (int k = 0; k < 10; k++) sums[k] = k * k;
  pfor (int k = 0; k < 10; k++) sums[k] = sums[k] + twice(k);
  print(sums[9]);
  int most = 7;
  pfor (int k = 0; k <= most; k++) { sums[k] = 7; }
  print(sums[7] + sums[8]);
  pfor (int k = 10; k < 10; k++) sums[k - 10] = 0;
  print(sums[0]);
  pfor (int k = 0; k < 1; k++) sums[k] = twice(sums[k]);
  print(sums[0]);
  pfor (int k = 2147483640; k < 2147483647; k++) sum = sum + 1;
  print(sum);
  int last = 0;
  pfor (int k = 0; k < 6; k++) {
    if (k == 3) continue;
    last = k;
  }
  print(last);
  return 0;
}
",
        input: b"",
        text: b"470369258\n987\n1597\n14\n63\n140\n99\n87\n7\n14\n147\n5\n",
        returned: 0,
        turns: Some(85),
    },
    Program {
        name: "forms/counters/lookalikes",
        source: br"// Loops that look like it: their steps, or what their bodies assign, make their locals carried ones.
// Whole turns: 26.
int main() {
  pfor (int i = 0; i < 3; i = i + 1) print(i);
  pfor (int i = 0; i < 3; i += (1)) print(i);
  pfor (int i = 3; i > 0; i += -1) print(i);
  pfor (int i = 1; i < 9; i *= 2) print(i);
  pfor (int i = 0; i < 6; i++) { print(i); i = i + 1; }
  pfor (int i = 0; i < 6; i++) { print(i); { if (i == 2) { i++; } } }
  pfor (int i = 0; i < 6; i++) { for (; i % 3 != 0; i++) emit(66); print(i); }
  int i = 1;
  pfor (; i < 3; i++) print(i);
  return 0;
}
",
        input: b"",
        text: b"0\n1\n2\n0\n1\n2\n3\n2\n1\n1\n2\n4\n8\n0\n2\n4\n0\n1\n2\n4\n5\n0\nBB3\nBB6\n1\n2\n",
        returned: 0,
        turns: Some(26),
    },
    Program {
        name: "forms/counters/nested",
        source: br"// Marked loops in marked ones, all with counters: the outer one is a region, and runs the inner ones plainly.
// Whole turns: 6.
int m[12];

void row(int i) {
  pfor (int j = 0; j < 4; j++) m[i * 4 + j] = i * 10 + j;
}

int main() {
  pfor (int i = 2; i >= 0; i--) row(i);
  int k;
  pfor (int i = 0; i < 3; i++) {
    pfor (k = 3; k >= 0; k--) print(m[i * 4 + k]);
    print(k);
  }
  print(k);
  return 0;
}
",
        input: b"",
        text: b"3\n2\n1\n0\n-1\n13\n12\n11\n10\n-1\n23\n22\n21\n20\n-1\n-1\n",
        returned: 0,
        turns: Some(6),
    },
    Program {
        name: "forms/counters/parameter",
        source: br"// A parameter is the counter, and is returned.
// Whole turns: 11.
int sum;

int f(int n, int least) {
  pfor (n = n * 2; n > least; n -= 3) sum += n;
  return n;
}

int main() {
  print(f(5, 1));
  print(f(10, -4));
  print(f(1, 2));
  print(sum);
  return 0;
}
",
        input: b"",
        text: b"1\n-4\n2\n97\n",
        returned: 0,
        turns: Some(11),
    },
    Program {
        name: "forms/counters/read_behind_inner",
        source: br"// The body reads the counter behind inner loops, which have counters of their own.
// Whole turns: 4.
int main() {
  int total = 0;
  pfor (int i = 1; i <= 4; i++) {
    int t = 0;
    for (int j = 0; j < i; j++) t += j;
    pfor (int j = 0; j < i; j++) t += i;
    total += t * i;
    print(i * 100 + t);
  }
  print(total);
  return 0;
}
",
        input: b"",
        text: b"101\n205\n312\n422\n135\n",
        returned: 0,
        turns: Some(4),
    },
    Program {
        name: "forms/counters/returned",
        source: br"// Functions return out of their loops, with the counter and without.
// Whole turns: 13.
int a[6] = {8, 6, 7, 5, 3, 0};

int place_of(int x) {
  pfor (int i = 0; i < 6; i++)
    if (a[i] == x) return i;
  return -1;
}

int least_above(int x) {
  int i;
  pfor (i = x; ; i += 2) {
    if (i % 7 == 0) return 100;
    if (i > x + 3) return i;
  }
}

int main() {
  print(place_of(5));
  print(place_of(9));
  print(least_above(1));
  print(least_above(13));
  return 0;
}
",
        input: b"",
        text: b"3\n-1\n5\n17\n",
        returned: 0,
        turns: Some(13),
    },
    Program {
        name: "forms/counters/shadowed",
        source: br"// The body has a local of the counter's name, and assigns that one.
// Whole turns: 6.
int main() {
  pfor (int i = 0; i < 3; i++) {
    print(i);
    int i = 50;
    i = i + 1;
    print(i);
  }
  int i = 9;
  pfor (int j = i - 7; j < 5; j += 1) print(j);
  print(i);
  return 0;
}
",
        input: b"",
        text: b"0\n51\n1\n51\n2\n51\n2\n3\n4\n9\n",
        returned: 0,
        turns: Some(6),
    },
    Program {
        name: "forms/counters/step_of_nothing",
        source: br"// Steps of 0: the counter stays, and the loop is left by `break`.
// Whole turns: 5.
int count;

int main() {
  int i;
  pfor (i = 7; ; i += 0) {
    count++;
    if (count == 3) break;
    print(i);
  }
  print(i + count);
  pfor (int j = -2; j < 0; j -= 0) {
    count++;
    print(j * count);
    if (count == 7) break;
  }
  return 0;
}
",
        input: b"",
        text: b"7\n7\n10\n-8\n-10\n-12\n-14\n",
        returned: 0,
        turns: Some(5),
    },
    Program {
        name: "forms/counters/tables",
        source: br"// Turns that write words of their own, by the counter.
int a[16];
int b[16];
int main() {
  pfor (int i = 0; i < 16; i++) a[i] = i * i;
  pfor (int i = 15; i >= 0; i--) b[i] = a[15 - i] - i;
  pfor (int i = 0; i < 16; i += 5) print(a[i] + b[i]);
  pfor (int i = 1; i < 16; i++) a[i] += a[i - 1];
  print(a[15]);
  return 0;
}
// Whole turns: 51.
",
        input: b"",
        text: b"225\n120\n115\n210\n1240\n",
        returned: 0,
        turns: Some(51),
    },
    Program {
        name: "forms/counters/two_of_them",
        source: br"// Of two locals that are declared, the step counts one; a step over both is none.
// Whole turns: 10.
int main() {
  pfor (int i = 3, j = 5; j > 0; j--) print(i * j);
  pfor (int i = 0, j = 2; i < 5; i++) {
    j += i;
    print(j);
  }
  return 0;
}
",
        input: b"",
        text: b"15\n12\n9\n6\n3\n2\n3\n5\n8\n12\n",
        returned: 0,
        turns: Some(10),
    },
    Program {
        name: "forms/counters/two_tests",
        source: br"// Two tests that turns begin with: the first leads to the second where it doesn't hold, or the iteration ends by either. Less, not
// greater, of counters and of carried locals, against numbers and locals; loops that go on a while by the second alone, and regions
// that are opened again.
// Whole turns: 67.
int cells[16];
int asked;

int told(int x) {
  asked = asked + 1;
  return x;
}

int main() {
  int again = 3;
  int sum = 0;
  pfor (int k = 0; k < 5 || again > 0; k++) {
    if (k >= 5) again = again - 1;
    sum = sum * 2 + k;
  }
  print(sum);
  print(again);

  int bound = 6;
  again = 4;
  pfor (int k = 1; k <= bound || again != 0; k += 2) {
    if (k > bound) again = again - 1;
    sum = sum + k * again;
  }
  print(sum);

  int i = 0;
  again = 2;
  pwhile (i < 4 || again > 0) {
    if (i >= 4) again = again - 1;
    cells[i] = cells[i] + again + 1;
    i = i + 1;
  }
  print(i);
  print(cells[3] * 10 + cells[5]);

  i = 1;
  pwhile (i <= bound && sum > 0) {
    sum = sum - i;
    i = i + 1;
  }
  print(sum);

  pfor (int k = 0; k < 9 && k != 7; k++) cells[k] = cells[k] + k;
  print(cells[6] * 100 + cells[7]);

  pfor (int k = 0; k < 3 || told(k) < 6; k++) sum = sum + k;
  print(sum);
  print(asked);

  i = 0;
  pwhile (i < bound ? i < 4 : again > 0) {
    i = i + 1;
    sum = sum + i;
  }
  print(i);

  for (int round = 0; round < 4; round++) {
    again = round;
    pfor (int k = 0; k < round || again > 0; k++) {
      if (k >= round) again = again - 1;
      sum = sum + k;
    }
    pwhile (again < 2 || told(again) < round) again = again + 1;
  }
  print(sum);
  print(again);
  print(asked);

  pfor (int k = 2147483645; k < 2147483647 || again > 0; k++) {
    again = again - 1;
    if (k == 2147483647) break;
    sum = sum + 1;
  }
  print(sum);
  print(again);
  return 0;
}
",
        input: b"",
        text: b"247\n0\n333\n6\n31\n312\n600\n327\n4\n4\n359\n3\n9\n361\n0\n",
        returned: 0,
        turns: Some(67),
    },
    Program {
        name: "forms/counters/ways_out",
        source: br"// Counters behind `break`, in a loop that `continue` cuts short, and with `return` from the middle.
int find(int k) {
  int i;
  pfor (i = 0; i < 20; i += 2) {
    if (i * i == k) return i;
    if (i > 9) break;
  }
  print(i);
  return -1;
}
int main() {
  int i;
  pfor (i = 1; i < 100; i += 3) {
    if (i > 20) break;
    if (i % 2 == 0) continue;
    print(i);
  }
  print(i);
  print(find(36));
  print(find(35));
  pfor (i = 9;; i--) {
    if (i < 5) break;
  }
  print(i);
  return 0;
}
",
        input: b"",
        text: b"1\n7\n13\n19\n22\n6\n10\n-1\n4\n",
        returned: 0,
        turns: None,
    },
    Program {
        name: "forms/counters/wrapping",
        source: br"// Counters that wrap: past the greatest number, past the least, and by steps as great as a number can be.
// Whole turns: 7.
int main() {
  int i;
  pfor (i = 2147483646; i > 0; i++) print(i);
  print(i);
  pfor (i = -2147483647; i < 0; i--) print(i);
  print(i);
  pfor (i = 5; i != 3; i += 2147483647) print(i);
  print(i);
  pfor (i = -3; i < 2147483640; i -= 2147483647) print(i);
  print(i);
  return 0;
}
",
        input: b"",
        text: b"2147483646\n2147483647\n-2147483648\n-2147483647\n-2147483648\n2147483647\n5\n-2147483644\n3\n-3\n2147483646\n",
        returned: 0,
        turns: Some(7),
    },
];
