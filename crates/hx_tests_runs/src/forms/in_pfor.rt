// Made by forms/write_tests.sh from the programs in forms/in_pfor and from what a C compiler makes of them.
// Change those and run the script again, and never this file.

use super::{Program, all_hold};

#[test]
fn programs_hold(rt: HostRuntime) {
    all_hold(&rt, rt.alloc(), &PROGRAMS);
}

const PROGRAMS: [Program<'static>; 18] = [
    Program {
        name: "forms/in_pfor/assign_element",
        source: br"// Each assignment, to elements of an array, in the turns of a `pfor`.
// Whole turns: 3.
int g = 1;
int a[8] = {3, 1, 4, 1, 5, 9, 2, 6};

int main() {
  int s = 10;
  pfor (int k = 0; k < 3; k++) {
    a[k] = a[k] + 40; print(a[k]);
    a[k + 1] += 7 + s; print(a[k + 1]);
    a[k + 1] -= a[k]; print(a[k + 1]);
    a[k + 2] *= 5 - k; print(a[k + 2]);
    a[k + 2] /= 2; print(a[k + 2]);
    a[7 - k] %= 4 + k; print(a[7 - k]);
    a[6] <<= k + 1; print(a[6]);
    a[6] >>= 1; print(a[6]);
    a[k] &= 45; print(a[k]);
    a[k + 3] ^= s; print(a[k + 3]);
    a[a[6] & 7] |= 64 + k; print(a[a[6] & 7]);
    a[a[7] - a[7]] += a[a[6] & 3]; print(a[0]);
  }
  print(s);
  print(g);
  for (int i = 0; i < 8; i++) print(a[i]);
  return 0;
}
",
        input: b"",
        text: b"43\n18\n-25\n20\n10\n2\n4\n2\n41\n11\n74\n115\n15\n91\n76\n44\n22\n2\n8\n4\n13\n15\n79\n230\n116\n39\n-77\n237\n118\n3\n32\n16\n36\n9\n230\n460\n10\n1\n460\n13\n36\n-77\n118\n9\n16\n2\n",
        returned: 0,
        turns: Some(3),
    },
    Program {
        name: "forms/in_pfor/assign_global",
        source: br"// Each assignment, to a global, in the turns of a `pfor`.
// Whole turns: 3.
int g = 1;
int a[8] = {3, 1, 4, 1, 5, 9, 2, 6};

int main() {
  int s = 10;
  pfor (int k = 0; k < 3; k++) {
    g = g + k + 100; print(g);
    g += 7 + k; print(g);
    g -= 3 * k; print(g);
    g *= 5; print(g);
    g /= 2; print(g);
    g %= 97; print(g);
    g <<= k + 1; print(g);
    g >>= 1; print(g);
    g &= 117; print(g);
    g ^= 9 + k; print(g);
    g |= 64; print(g);
    g = -g; print(g);
    g = k - g; print(g);
    g += g; print(g);
  }
  print(s);
  print(g);
  return 0;
}
",
        input: b"",
        text: b"101\n108\n108\n540\n270\n76\n152\n76\n68\n77\n77\n-77\n77\n154\n255\n263\n260\n1300\n650\n68\n272\n136\n0\n10\n74\n-74\n75\n150\n252\n261\n255\n1275\n637\n55\n440\n220\n84\n95\n95\n-95\n97\n194\n10\n194\n",
        returned: 0,
        turns: Some(3),
    },
    Program {
        name: "forms/in_pfor/assign_local",
        source: br"// Each assignment, to a local, in the turns of a `pfor`.
// Whole turns: 3.
int g = 1;
int a[8] = {3, 1, 4, 1, 5, 9, 2, 6};

int main() {
  int s = 10;
  pfor (int k = 0; k < 3; k++) {
    int x = k;
    x = x + k + 100; print(x);
    x += 7 + k; print(x);
    x -= 3 * k; print(x);
    x *= 5; print(x);
    x /= 2; print(x);
    x %= 97; print(x);
    x <<= k + 1; print(x);
    x >>= 1; print(x);
    x &= 117; print(x);
    x ^= 9 + k; print(x);
    x |= 64; print(x);
    x = -x; print(x);
    x = k - x; print(x);
    s += x;
    x += x; print(x);
  }
  print(s);
  print(g);
  return 0;
}
",
        input: b"",
        text: b"100\n107\n107\n535\n267\n73\n146\n73\n65\n72\n72\n-72\n72\n144\n102\n110\n107\n535\n267\n73\n292\n146\n16\n26\n90\n-90\n91\n182\n104\n113\n107\n535\n267\n73\n584\n292\n36\n47\n111\n-111\n113\n226\n286\n1\n",
        returned: 0,
        turns: Some(3),
    },
    Program {
        name: "forms/in_pfor/assign_outer",
        source: br"// Each assignment, to a local from further out, in the turns of a `pfor`.
// Whole turns: 3.
int g = 1;
int a[8] = {3, 1, 4, 1, 5, 9, 2, 6};

int main() {
  int s = 10;
  pfor (int k = 0; k < 3; k++) {
    s = s + k + 100; print(s);
    s += 7 + k; print(s);
    s -= 3 * k; print(s);
    s *= 5; print(s);
    s /= 2; print(s);
    s %= 97; print(s);
    s <<= k + 1; print(s);
    s >>= 1; print(s);
    s &= 117; print(s);
    s ^= 9 + k; print(s);
    s |= 64; print(s);
    s = -s; print(s);
    s = k - s; print(s);
    s += s; print(s);
  }
  print(s);
  print(g);
  return 0;
}
",
        input: b"",
        text: b"110\n117\n117\n585\n292\n1\n2\n1\n1\n8\n72\n-72\n72\n144\n245\n253\n250\n1250\n625\n43\n172\n86\n84\n94\n94\n-94\n95\n190\n292\n301\n295\n1475\n737\n58\n464\n232\n96\n107\n107\n-107\n109\n218\n218\n1\n",
        returned: 0,
        turns: Some(3),
    },
    Program {
        name: "forms/in_pfor/blocks",
        source: br"// Empty statements and blocks, in the turns of a `pfor`.
// Whole turns: 3.
int g = 1;
int a[8] = {3, 1, 4, 1, 5, 9, 2, 6};

int main() {
  int s = 10;
  pfor (int k = 0; k < 3; k++) {
    ;
    { }
    { ; ; { } }
    { int s = k; { int k = s + 5; s = k * 2; print(k); print(s); } print(s); }
    print(s);
    { { { s += k; } } g += s; }
    if (k) { } else { ; }
    for (int i = 0; i < 2; i++) { }
    for (int i = 0; i < 2; i++) ;
    { int t = s; { int t = 3; s += t; } s += t; { int t = k; s -= t; } }
    print(s);
  }
  print(s);
  print(g);
  return 0;
}
",
        input: b"",
        text: b"5\n10\n10\n10\n23\n6\n12\n12\n23\n50\n7\n14\n14\n50\n105\n105\n87\n",
        returned: 0,
        turns: Some(3),
    },
    Program {
        name: "forms/in_pfor/breaks",
        source: br"// `break` and `continue` in plain loops, in the turns of a `pfor`.
// Whole turns: 3.
int g = 1;
int a[8] = {3, 1, 4, 1, 5, 9, 2, 6};

int main() {
  int s = 10;
  pfor (int k = 0; k < 3; k++) {
    for (int i = 0; i < 5; i++) { if (i == k + 1) break; print(i); }
    for (int i = 0; i < 5; i++) { if (i == k + 1) continue; s += i; }
    print(s);
    int n = 0;
    while (n < 6) { n++; if (n == 2) continue; if (n == 4 + k) break; print(n * 10); }
    print(n);
    for (;;) { n--; if (n > k) continue; break; }
    print(n);
    while (1) {
      while (1) { n++; if (n > 4) break; }
      n += 10;
      if (n > 20) break; else continue;
    }
    print(n);
    for (int i = 0; i < 4; i++) {
      if (i == 1) { g += 10; continue; }
      for (int j = 0; ; j++) { if (j == i) { g++; break; } if (j == k) continue; g += 100; }
    }
  }
  print(s);
  print(g);
  return 0;
}
",
        input: b"",
        text: b"0\n19\n10\n30\n4\n0\n26\n0\n1\n27\n10\n30\n40\n5\n1\n26\n0\n1\n2\n34\n10\n30\n40\n50\n6\n2\n26\n34\n1040\n",
        returned: 0,
        turns: Some(3),
    },
    Program {
        name: "forms/in_pfor/calls",
        source: br"// Calls, as statements and in expressions, in the turns of a `pfor`.
// Whole turns: 3.
int g = 1;
int a[8] = {3, 1, 4, 1, 5, 9, 2, 6};

int twice(int x) { return 2 * x; }
void note(int x) { g = g * 3 + x; print(g); }
int next_one(void) { g++; return g; }
int least(int x, int y) { if (x < y) return x; return y; }
int all(int p, int q, int r, int s, int t, int u, int v, int w) { return p - q + 2 * r - 3 * s + 5 * t - 7 * u + 11 * v - 13 * w; }
void nothing() { }

int main() {
  int s = 10;
  pfor (int k = 0; k < 3; k++) {
    note(k);
    twice(s);
    next_one();
    print(g);
    s = twice(twice(k) + 1) + s;
    print(s);
    print(least(k, s) - least(s, 1));
    print(least(twice(k) + 1, next_one()));
    note(least(a[k], a[k + 1]));
    print(a[least(k, 7)] + twice(a[twice(k)]));
    print(all(1, -2, 3, -4, k, s, g, a[k]));
    if (twice(k) > 1) note(twice(-k));
    for (int i = twice(k); i < twice(3); i = i + twice(1)) nothing();
  }
  print(s);
  print(g);
  return 0;
}
",
        input: b"",
        text: b"3\n4\n12\n-1\n1\n16\n9\n74\n49\n50\n18\n0\n3\n154\n9\n1581\n460\n1382\n1383\n28\n1\n5\n4153\n14\n45466\n12455\n28\n12455\n",
        returned: 0,
        turns: Some(3),
    },
    Program {
        name: "forms/in_pfor/declarations",
        source: br"// Declarations of locals, in the turns of a `pfor`.
// Whole turns: 3.
int g = 1;
int a[8] = {3, 1, 4, 1, 5, 9, 2, 6};

int main() {
  int s = 10;
  pfor (int k = 0; k < 3; k++) {
    int x = k + 1, y = x * 10, z;
    z = y + x;
    {
      int x = z + 1, u;
      u = x + y;
      x += u;
      print(x);
      s += x;
    }
    int w = s - x;
    print(w);
    for (int x = w, n = 0; n < 2; n++) {
      int y = x + n;
      x += y;
      print(x);
    }
    print(x + y + z);
  }
  print(s);
  print(g);
  return 0;
}
",
        input: b"",
        text: b"34\n43\n86\n173\n22\n66\n108\n216\n433\n44\n98\n205\n410\n821\n66\n208\n1\n",
        returned: 0,
        turns: Some(3),
    },
    Program {
        name: "forms/in_pfor/for",
        source: br"// `for`, with each of its clauses left out, in the turns of a `pfor`.
// Whole turns: 3.
int g = 1;
int a[8] = {3, 1, 4, 1, 5, 9, 2, 6};

int main() {
  int s = 10;
  pfor (int k = 0; k < 3; k++) {
    for (int i = k; i < 3; i++) print(i);
    int i = 0;
    for (; i < k + 2; i++) s += i;
    print(i);
    for (i = 5; i > k;) i -= 2;
    print(i);
    for (int j = 0; ; j += 2) { if (j > k + 3) break; print(j); }
    for (;;) { i++; if (i > 6) break; }
    print(i);
    for (; i > 2;) { i -= 3; s++; }
    for (i += 4; ; ) { i++; if (i > 9) break; }
    for (int p = 0, q = 9; p < q; p += 3) { q--; s += p * q; }
    print(s);
    for (g = 0; g < k + 1; g++) ;
    print(g);
    for (a[0] = k; a[0] < 4; a[0]++) s++;
    for (i = 0; i < 0; i++) print(300);
    for (int u = 0; u < 2; u++) for (int v = u; v < 2; v++) print(u * 10 + v + k);
  }
  print(s);
  print(g);
  for (int i = 0; i < 8; i++) print(a[i]);
  return 0;
}
",
        input: b"",
        text: b"0\n1\n2\n2\n-1\n0\n2\n7\n70\n1\n0\n1\n11\n1\n2\n3\n1\n0\n2\n4\n7\n136\n2\n1\n2\n12\n2\n4\n1\n0\n2\n4\n7\n204\n3\n2\n3\n13\n206\n3\n4\n1\n4\n1\n5\n9\n2\n6\n",
        returned: 0,
        turns: Some(3),
    },
    Program {
        name: "forms/in_pfor/if",
        source: br"// `if` and `else`, in the turns of a `pfor`.
// Whole turns: 3.
int g = 1;
int a[8] = {3, 1, 4, 1, 5, 9, 2, 6};

int main() {
  int s = 10;
  pfor (int k = 0; k < 3; k++) {
    if (k == 0) print(100);
    if (k > 1) print(101); else print(102);
    if (k == 0) { s += 1; print(s); } else if (k == 1) { s += 2; print(s); } else { s += 3; print(s); }
    if (k > 0) if (k > 1) print(103); else print(104);
    if (k > 0) { if (k > 1) print(105); } else print(106);
    if (k) ; else print(107);
    if (s - k) { } else print(108);
    if (a[k] > 2) { int x = s * 2; g += x; } else g = g - k;
    print(g);
    if (k == 1) while (s < 20) if (s % 2) s += 3; else s += 5;
    if (s < 20) for (int i = 0; i < 2; i++) { if (i == k) s++; } else s += 100;
  }
  print(s);
  print(g);
  return 0;
}
",
        input: b"",
        text: b"100\n102\n11\n106\n107\n23\n102\n14\n104\n22\n101\n125\n103\n105\n272\n225\n272\n",
        returned: 0,
        turns: Some(3),
    },
    Program {
        name: "forms/in_pfor/logic",
        source: br"// `&&` and `||`, which skip their right sides, in the turns of a `pfor`.
// Whole turns: 3.
int g = 1;
int a[8] = {3, 1, 4, 1, 5, 9, 2, 6};

int told(int x) { print(x + 1000); return x; }

int main() {
  int s = 10;
  pfor (int k = 0; k < 3; k++) {
    print(told(k) && told(1));
    print(told(k) || told(2));
    print(told(0) || told(k) && told(3));
    print((told(k) || told(0)) && told(k - 1));
    print(told(k) && told(0) || told(k - 2));
    if (k == 1 && told(7)) s++;
    if (k == 1 || told(8)) s += 2; else s -= 50;
    if (!(k && s)) print(1);
    while (told(k) && s < 14) s += 2;
    int x = (k && 5) + (s || 0) * 2;
    print(x);
    print(3 && 2 && k);
    print(0 || 0 || k);
    a[k && 1] += k || told(9);
    g += k && s;
    g *= told(k) || x > 2 && !k;
  }
  print(s);
  print(g);
  for (int i = 0; i < 8; i++) print(a[i]);
  return 0;
}
",
        input: b"",
        text: b"1000\n0\n1000\n1002\n1\n1000\n1000\n0\n1000\n1000\n0\n1000\n998\n1\n1008\n1\n1000\n2\n0\n0\n1009\n1000\n1001\n1001\n1\n1001\n1\n1000\n1001\n1003\n1\n1001\n1000\n0\n1001\n1000\n999\n1\n1007\n1001\n3\n1\n1\n1001\n1002\n1001\n1\n1002\n1\n1000\n1002\n1003\n1\n1002\n1001\n1\n1002\n1000\n1000\n0\n1008\n1002\n3\n1\n1\n1002\n17\n2\n4\n3\n4\n1\n5\n9\n2\n6\n",
        returned: 0,
        turns: Some(3),
    },
    Program {
        name: "forms/in_pfor/operators",
        source: br"// Each operator, in the turns of a `pfor`.
// Whole turns: 3.
int g = 1;
int a[8] = {3, 1, 4, 1, 5, 9, 2, 6};

int main() {
  int s = 10;
  pfor (int k = 0; k < 3; k++) {
    int x = 17 * (k + 1), y = 5 - k * 3, z = y;
    print(x + y); print(x - y); print(x * y); print(x / y); print(x % y); print(-x / y); print(-x % y);
    print(x << k); print(-x >> k); print(x & y); print(x | y); print(x ^ y); print(-x & y | 1 ^ s);
    print(~x); print(!x); print(!!y); print(- -y); print(-~x); print(!~x);
    print(x < y); print(x <= y); print(x > y); print(x >= y); print(x == y); print(x != y);
    print(y < z); print(y <= z); print(y > z); print(y >= z); print(y == z); print(y != z);
    print(2147483647 + k); print((2147483647 - k) * 3); print(-(-2147483647 - k));
    print(x - y - k); print(x - (y - k)); print(100 / 7 / 2); print(100 / (7 / 2)); print(x % 7 * 3);
    print(x + y * k - x / 3 % 4 << 1 & 255 | s ^ 3);
    print(1 < 2 == 1); print((x < y) + (y < x) * 2); print(3 > 2 > 1); print(1 << 2 + k); print(64 >> 1 << 2);
    s += x * y;
  }
  print(s);
  print(g);
  return 0;
}
",
        input: b"",
        text: b"22\n12\n85\n3\n2\n-3\n-2\n17\n-17\n1\n21\n20\n15\n-18\n0\n1\n5\n18\n0\n0\n0\n1\n1\n0\n1\n0\n1\n0\n1\n1\n0\n2147483647\n2147483645\n2147483647\n12\n12\n7\n33\n9\n41\n1\n2\n0\n4\n128\n36\n32\n68\n17\n0\n-17\n0\n68\n-17\n2\n34\n32\n94\n-35\n0\n1\n2\n35\n0\n0\n0\n1\n1\n0\n1\n0\n1\n0\n1\n1\n0\n-2147483648\n2147483642\n-2147483648\n31\n33\n7\n33\n18\n94\n1\n2\n0\n8\n128\n50\n52\n-51\n-51\n0\n51\n0\n204\n-13\n51\n-1\n-52\n-17\n-52\n0\n1\n-1\n52\n0\n0\n0\n1\n1\n0\n1\n0\n1\n0\n1\n1\n0\n-2147483647\n2147483639\n-2147483647\n50\n54\n7\n33\n6\n224\n1\n2\n0\n16\n128\n112\n1\n",
        returned: 0,
        turns: Some(3),
    },
    Program {
        name: "forms/in_pfor/pfor",
        source: br"// `pfor`, with each of its clauses left out, in the turns of a `pfor`.
// Whole turns: 3.
int g = 1;
int a[8] = {3, 1, 4, 1, 5, 9, 2, 6};

int main() {
  int s = 10;
  pfor (int k = 0; k < 3; k++) {
    pfor (int i = k; i < 3; i++) print(i);
    int i = 0;
    pfor (; i < k + 2; i++) s += i;
    print(i);
    pfor (i = 5; i > k;) i -= 2;
    print(i);
    pfor (int j = 0; ; j += 2) { if (j > k + 3) break; print(j); }
    pfor (;;) { i++; if (i > 6) break; }
    print(i);
    pfor (; i > 2;) { i -= 3; s++; }
    pfor (i += 4; ; ) { i++; if (i > 9) break; }
    pfor (int p = 0, q = 9; p < q; p += 3) { q--; s += p * q; }
    print(s);
    pfor (g = 0; g < k + 1; g++) ;
    print(g);
    pfor (a[0] = k; a[0] < 4; a[0]++) s++;
    pfor (i = 0; i < 0; i++) print(300);
    pfor (int u = 0; u < 2; u++) pfor (int v = u; v < 2; v++) print(u * 10 + v + k);
  }
  print(s);
  print(g);
  for (int i = 0; i < 8; i++) print(a[i]);
  return 0;
}
",
        input: b"",
        text: b"0\n1\n2\n2\n-1\n0\n2\n7\n70\n1\n0\n1\n11\n1\n2\n3\n1\n0\n2\n4\n7\n136\n2\n1\n2\n12\n2\n4\n1\n0\n2\n4\n7\n204\n3\n2\n3\n13\n206\n3\n4\n1\n4\n1\n5\n9\n2\n6\n",
        returned: 0,
        turns: Some(3),
    },
    Program {
        name: "forms/in_pfor/prints",
        source: br"// `print` and `emit`, in the turns of a `pfor`.
// Whole turns: 3.
int g = 1;
int a[8] = {3, 1, 4, 1, 5, 9, 2, 6};

int main() {
  int s = 10;
  pfor (int k = 0; k < 3; k++) {
    print(k); print(-k); print(s * 1000003); print(0);
    print(2147483647); print(-2147483647 - 1);
    emit(65 + k); emit(10); emit(266); emit(-1 - k); emit(0); emit(256 + 66); emit(128);
    print(((k + s)));
    emit(34); emit(92); emit(39); emit(13); emit(9);
    print(a[k]);
    emit(a[k] + 48);
  }
  print(s);
  print(g);
  return 0;
}
",
        input: b"",
        text: b"0\n0\n10000030\n0\n2147483647\n-2147483648\nA\n\n\xff\x00B\x8010\n\"\\'\x0d\x093\n31\n-1\n10000030\n0\n2147483647\n-2147483648\nB\n\n\xfe\x00B\x8011\n\"\\'\x0d\x091\n12\n-2\n10000030\n0\n2147483647\n-2147483648\nC\n\n\xfd\x00B\x8012\n\"\\'\x0d\x094\n410\n1\n",
        returned: 0,
        turns: Some(3),
    },
    Program {
        name: "forms/in_pfor/pwhile",
        source: br"// `pwhile`, in the turns of a `pfor`.
// Whole turns: 3.
int g = 1;
int a[8] = {3, 1, 4, 1, 5, 9, 2, 6};

int main() {
  int s = 10;
  pfor (int k = 0; k < 3; k++) {
    int n = k;
    pwhile (n < 3) { print(n); n++; }
    pwhile (n > 5) print(200);
    pwhile (g < 6 + k) g += k + 1;
    print(g);
    int m = 0;
    pwhile (m < 3) { int j = m * 2; m++; if (m == 2) continue; s += j + k; }
    print(s);
    pwhile (1) { s += 3; if (s > 40 * k) break; print(s); }
    pwhile (a[k] < 9) { pwhile (a[k] < 7) a[k] += n; a[k]++; }
  }
  print(s);
  print(g);
  for (int i = 0; i < 8; i++) print(a[i]);
  return 0;
}
",
        input: b"",
        text: b"0\n1\n2\n6\n14\n1\n2\n8\n23\n26\n29\n32\n35\n38\n2\n8\n49\n52\n55\n58\n61\n64\n67\n70\n73\n76\n79\n82\n8\n10\n9\n9\n1\n5\n9\n2\n6\n",
        returned: 0,
        turns: Some(3),
    },
    Program {
        name: "forms/in_pfor/returns",
        source: br"// `return` with a value and without, in the turns of a `pfor`.
// Whole turns: 3.
int g = 1;
int a[8] = {3, 1, 4, 1, 5, 9, 2, 6};

int sign(int x) { if (x < 0) return -1; if (x > 0) { return 1; } else return 0; }
void note(int x) {
  g += x;
  if (x == 2) return;
  print(x);
  { if (x == 3) { return; } }
  print(x * 10);
  return;
}
int place_over(int x) {
  for (int i = 0; i < 8; i++) if (a[i] > x) return i;
  return -1;
}
int until(int x) {
  while (1) {
    for (;;) { x++; if (x % 5 == 0) return x; if (x % 3 == 0) break; }
    g++;
  }
  return 99;
}

int main() {
  int s = 10;
  pfor (int k = 0; k < 3; k++) {
    print(sign(k - 1));
    print(sign(-k));
    note(k);
    note(k + 1);
    print(place_over(k + 1));
    print(place_over(9));
    s += until(k);
    s += sign(s) + until(place_over(k));
  }
  print(s);
  print(g);
  return 0;
}
",
        input: b"",
        text: b"-1\n0\n0\n0\n1\n10\n0\n-1\n0\n-1\n1\n10\n0\n-1\n1\n-1\n3\n2\n-1\n43\n16\n",
        returned: 0,
        turns: Some(3),
    },
    Program {
        name: "forms/in_pfor/steps",
        source: br"// `++` and `--`, in the turns of a `pfor`.
// Whole turns: 3.
int g = 1;
int a[8] = {3, 1, 4, 1, 5, 9, 2, 6};

int main() {
  int s = 10;
  pfor (int k = 0; k < 3; k++) {
    int x = k;
    x++; print(x);
    x--; x--; print(x);
    s++; s++; print(s);
    s--; print(s);
    g--; g--; g--; print(g);
    g++; print(g);
    a[k]++; a[k]++; print(a[k]);
    a[(a[k] + k) & 7]--;
    for (x = 4; x > k; x--) s++;
    print(x);
  }
  print(s);
  print(g);
  for (int i = 0; i < 8; i++) print(a[i]);
  return 0;
}
",
        input: b"",
        text: b"1\n-1\n12\n11\n-2\n-1\n5\n0\n2\n0\n17\n16\n-4\n-3\n3\n1\n3\n1\n21\n20\n-6\n-5\n6\n2\n22\n-5\n4\n3\n6\n1\n4\n8\n2\n6\n",
        returned: 0,
        turns: Some(3),
    },
    Program {
        name: "forms/in_pfor/while",
        source: br"// `while`, in the turns of a `pfor`.
// Whole turns: 3.
int g = 1;
int a[8] = {3, 1, 4, 1, 5, 9, 2, 6};

int main() {
  int s = 10;
  pfor (int k = 0; k < 3; k++) {
    int n = k;
    while (n < 3) { print(n); n++; }
    while (n > 5) print(200);
    while (n < 8) n += 3;
    print(n);
    while (s < 20 + k) s += 4;
    int m = 0;
    while (m < 2) {
      int j = 0;
      while (j < m + k) { g += j + 1; j++; }
      m++;
    }
    print(g);
    while (0) print(201);
    while (n) { n--; if (n == 4) n = 0; else s++; }
    print(n);
    while (a[k] < 9) a[k] += a[k + 1] + 1;
  }
  print(s);
  print(g);
  for (int i = 0; i < 8; i++) print(a[i]);
  return 0;
}
",
        input: b"",
        text: b"0\n1\n2\n9\n2\n0\n1\n2\n9\n6\n0\n2\n9\n15\n0\n34\n15\n9\n11\n10\n1\n5\n9\n2\n6\n",
        returned: 0,
        turns: Some(3),
    },
];
