// Made by forms/write_tests.sh from the programs in forms/locals and from what a C compiler makes of them.
// Change those and run the script again, and never this file.

use super::{Program, all_hold};

#[test]
fn programs_hold(rt: HostRuntime) {
    all_hold(&rt, rt.alloc(), &PROGRAMS);
}

const PROGRAMS: [Program<'static>; 15] = [
    Program {
        name: "forms/locals/among_others",
        source: br"// Carried and copied locals among locals of neither kind, in every order.
// Whole turns: 4.
int main() {
  int a = 1, b = 2, c = 3, d = 4, e = 5, f = 6, g = 7;
  b += a;
  pfor (int i = 0; i < 4; i++) {
    int h = c + i;
    e = e + h;
    a = a * 2 + g;
    print(h);
  }
  print(a); print(b); print(c); print(d); print(e); print(f); print(g);
  int h = a - e;
  print(h);
}
",
        input: b"",
        text: b"3\n4\n5\n6\n121\n3\n3\n4\n23\n6\n7\n98\n",
        returned: 0,
        turns: Some(4),
    },
    Program {
        name: "forms/locals/as_indexes",
        source: br"// Carried and copied locals as indexes, in a region that writes the elements.
// Whole turns: 6.
int a[10] = {1, 2, 3, 4, 5, 6, 7, 8, 9, 0};

int main() {
  int at = 0, base = 2, sum = 0;
  pfor (int i = 0; i < 6; i++) {
    sum += a[at];
    a[at] = -a[at];
    a[(at + base) % 10] += a[base];
    at = (at * 3 + base + 5) % 10;
    print(at);
  }
  print(sum);
  for (int i = 0; i < 10; i++) print(a[i]);
}
",
        input: b"",
        text: b"7\n8\n1\n0\n7\n8\n17\n-5\n-2\n12\n10\n5\n6\n7\n8\n-9\n18\n",
        returned: 0,
        turns: Some(6),
    },
    Program {
        name: "forms/locals/assigned_deep",
        source: br"// Outer locals that are assigned deep inside a region: in inner loops, their clauses and `if`s.
// Whole turns: 3.
int main() {
  int p = 1, q = 2, r = 3, s = 4, t = 5;
  pfor (int i = 0; i < 3; i++) {
    for (p = i; p < 4; p++) q += p;
    while (r > 0) { r -= 2; pfor (s = 0; s < 2; s++) { { if (q % 2) t += s; else t -= r; } } }
    r = q % 5;
    print(p); print(q); print(r); print(s); print(t);
  }
  print(p + 10 * q + 100 * r + 1000 * s + 10000 * t);
}
",
        input: b"",
        text: b"4\n8\n3\n2\n5\n4\n14\n4\n2\n5\n4\n19\n4\n2\n7\n72594\n",
        returned: 0,
        turns: Some(3),
    },
    Program {
        name: "forms/locals/carried_parameter",
        source: br"// A parameter that a region assigns, and that is used behind it.
// Whole turns: 9.
int f(int n) {
  pwhile (n < 100) n = n * 2 + 1;
  return n - 100;
}

int main() {
  print(f(3));
  print(f(40));
  print(f(100));
  print(f(99) + f(63));
  return 0;
}
",
        input: b"",
        text: b"27\n63\n0\n126\n",
        returned: 0,
        turns: Some(9),
    },
    Program {
        name: "forms/locals/copied_parameter",
        source: br"// Parameters that a region only reads, and that are used behind it.
// Whole turns: 7.
int a[8];

int fill(int from, int to, int with) {
  pfor (int i = from; i < to; i++) a[i] = with + i * from;
  return from * 100 + to * 10 + with;
}

int main() {
  print(fill(1, 4, 5));
  print(fill(4, 8, -5));
  print(fill(3, 3, 1));
  for (int i = 0; i < 8; i++) print(a[i]);
  return 0;
}
",
        input: b"",
        text: b"145\n475\n331\n0\n6\n7\n8\n11\n15\n19\n23\n",
        returned: 0,
        turns: Some(7),
    },
    Program {
        name: "forms/locals/eight_parameters",
        source: br"// Eight parameters, some of which a region assigns and some of which it only reads.
// Whole turns: 3.
int f(int p, int q, int r, int s, int t, int u, int v, int w) {
  pfor (int i = 0; i < 3; i++) {
    q += p;
    s -= q;
    print(r);
    u = u * t + i;
    w += v;
  }
  print(p); print(q); print(r); print(s); print(t); print(u); print(v); print(w);
  return p + q + r + s + t + u + v + w;
}

int main() {
  int x = 3;
  print(f(1, 2, x, 4, 5, 6, 7, 8));
  print(x);
  return 0;
}
",
        input: b"",
        text: b"3\n3\n3\n1\n5\n3\n-8\n5\n757\n7\n29\n799\n3\n",
        returned: 0,
        turns: Some(3),
    },
    Program {
        name: "forms/locals/first_clause",
        source: br"// Locals that a first clause declares, with others of the same names before and behind.
// Whole turns: 8.
int main() {
  int i = 50, j = 60;
  pfor (int i = 0, j = 9, k; i < j; i++) { k = i * j; j--; print(k); }
  print(i); print(j);
  pfor (i = 1; i < 4; i += 2) j += i;
  print(i); print(j);
  { int j = 5; pfor (int i = j; i; ) { i -= j; print(i); } print(j); }
  print(i); print(j);
}
",
        input: b"",
        text: b"0\n8\n14\n18\n20\n50\n60\n5\n64\n0\n5\n5\n64\n",
        returned: 0,
        turns: Some(8),
    },
    Program {
        name: "forms/locals/made_anew",
        source: br"// Locals of the body are made anew in each turn; those of an inner loop in each of its turns.
// Whole turns: 3.
int main() {
  int n = 2;
  pfor (int i = 0; i < 3; i++) {
    int x = 5, y;
    y = x + i;
    x += y;
    for (int j = 0; j < 2; j++) { int z = 1; z += x; x = z * n; y = z; }
    print(x);
    print(y);
    { int w = 3; w *= x; n++; print(w); }
  }
  print(n);
}
",
        input: b"",
        text: b"46\n23\n138\n111\n37\n333\n212\n53\n636\n5\n",
        returned: 0,
        turns: Some(3),
    },
    Program {
        name: "forms/locals/many",
        source: br"// A region that carries twelve locals and copies four.
// Whole turns: 3.
int main() {
  int a = 1, b = 2, c = 3, d = 4, e = 5, f = 6, g = 7, h = 8;
  int j = 9, k = 10, l = 11, m = 12, n = 13, o = 14, p = 15;
  pfor (int i = 0; i < 3; i++) {
    a += b; b += c; c += d; d += e; e += m; f += n; g += o; h += p;
    j -= a; k -= f; l -= k;
  }
  print(a); print(b); print(c); print(d); print(e); print(f); print(g); print(h);
  print(j); print(k); print(l); print(m); print(n); print(o); print(p);
}
",
        input: b"",
        text: b"20\n28\n42\n55\n41\n45\n49\n53\n-22\n-86\n147\n12\n13\n14\n15\n",
        returned: 0,
        turns: Some(3),
    },
    Program {
        name: "forms/locals/not_assigned_at_run_time",
        source: br"// Locals that a region would carry and doesn't come to assign.
// Whole turns: 8.
int f(int p) {
  int q = p * 3, r = 70;
  pfor (int i = 0; i < 4; i++) {
    if (i == p) r = i;
    if (p > 100) { p = 0; q = 0; }
    while (p < 0) { q++; break; }
  }
  print(r);
  return p + q;
}

int main() {
  print(f(2));
  print(f(50));
  return 0;
}
",
        input: b"",
        text: b"2\n8\n70\n200\n",
        returned: 0,
        turns: Some(8),
    },
    Program {
        name: "forms/locals/of_plain_loop",
        source: br"// A region in a plain loop carries locals of that loop's body, which are set anew each time.
// Whole turns: 12.
int main() {
  int sum = 0;
  for (int k = 0; k < 3; k++) {
    int x = k * 10, y = 1;
    pfor (int i = 0; i < 4; i++) { x += i * y; y += k; sum += x; }
    print(x);
    print(y);
  }
  print(sum);
}
",
        input: b"",
        text: b"6\n1\n30\n5\n54\n9\n210\n",
        returned: 0,
        turns: Some(12),
    },
    Program {
        name: "forms/locals/only_in_step",
        source: br"// Locals that only the step of a region assigns, or only its test reads.
// Whole turns: 10.
int main() {
  int step = 1, limit = 40, n = 0, last = 0;
  pfor (int i = 0; i < limit; i += step) { step += 1; n++; last = i; }
  print(step); print(limit); print(n); print(last);
  pfor (; n * n > limit; n--) print(n);
  print(n);
}
",
        input: b"",
        text: b"9\n40\n8\n35\n8\n7\n6\n",
        returned: 0,
        turns: Some(10),
    },
    Program {
        name: "forms/locals/passed_on",
        source: br"// Carried locals as arguments and results of functions that the turns call.
// Whole turns: 5.
int g;
int next_of(int x, int y) { x = x * 3 + y; g = x; y = 0; return x - g / 2 + y; }

int main() {
  int x = 1, y = 2;
  pfor (int i = 0; i < 5; i++) {
    x = next_of(y, x);
    y += next_of(x, i) % 100;
    print(x);
    print(y);
  }
  print(x); print(y); print(g);
}
",
        input: b"",
        text: b"4\n8\n14\n30\n52\n109\n190\n196\n389\n282\n389\n282\n1171\n",
        returned: 0,
        turns: Some(5),
    },
    Program {
        name: "forms/locals/swapped",
        source: br"// Turns that swap carried locals, and that leave by `break` with some of them assigned.
// Whole turns: 14.
int main() {
  int x = 1, y = 1000, t = 0;
  pfor (int i = 0; i < 5; i++) { t = x; x = y; y = t; x += i; }
  print(x); print(y); print(t);
  pwhile (1) {
    t = y - x;
    if (t > 0 && t < 5) break;
    x = y;
    y -= t / 2;
    if (y == x) { y = 7; break; }
    print(y);
  }
  print(x); print(y); print(t);
}
",
        input: b"",
        text: b"1006\n5\n5\n505\n255\n380\n318\n349\n334\n341\n338\n339\n338\n339\n1\n",
        returned: 0,
        turns: Some(14),
    },
    Program {
        name: "forms/locals/two_regions",
        source: br"// Two regions of one function that carry different locals, and a third that carries them all.
// Whole turns: 11.
int f(int p, int q) {
  int r = p + q, s = p - q;
  pfor (int i = 0; i < 3; i++) { p += r; s -= p; }
  print(p); print(q); print(r); print(s);
  pwhile (q < 40) { q = q * 2 + s % 2; r--; }
  print(p); print(q); print(r); print(s);
  pfor (int i = 0; i < 4; i++) { p++; q += p; r += q; s += r; }
  return p + q * 2 + r * 3 + s * 5;
}

int main() {
  print(f(1, 5));
}
",
        input: b"",
        text: b"19\n5\n6\n-43\n19\n65\n2\n-43\n6891\n",
        returned: 0,
        turns: Some(11),
    },
];
