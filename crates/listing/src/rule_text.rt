//! The pages, as texts.
//!
//! Compiled by clang 14 for images of form 3, each broken piece of C breaks its rule, and each
//! mended one is accepted.

/// The list of all rules.
pub const INDEX: &str = "\
The rules of the verifier. `sblog explain --why V6` prints the page of one: what it means, and examples.

V1   a jump goes back, or out of the code
V2   the code has no end
V3   a register is read that isn't set
V4   r10 is written
V5   a place is used as a number, or a number as a place
V6   an access may leave the message, the state or the stack
V7   the message is written
V8   there is no such helper
V9   a helper's argument isn't what it takes
V10  the result isn't a number
";

pub const V1: &str = "\
V1: a jump goes back, or out of the code.

A call of a handler has to end, so each jump leads to a later instruction. A loop has a known length, and `unrolled`
above it, so that clang writes it out.

Broken:  for (u64 i = 0; i < length; i++)
             sum += m[i];
Mended:  unrolled
         for (u64 i = 0; i < 64; i++)
             if (i < length)
                 sum += m[i];

Broken:  while (i < 32 && t[i] != key)
             i++;
Mended:  unrolled
         for (u64 k = 32; k-- > 0;)
             if (t[k] == key)
                 i = k;

Broken:  while (bits) {
             count += bits & 1;
             bits >>= 1;
         }
Mended:  unrolled
         for (u64 i = 0; i < 64; i++)
             count += bits >> i & 1;
";

pub const V2: &str = "\
V2: the code has no end.

The last instruction is `exit` or an unconditional jump: nothing follows it. An image has an instruction at least.

Broken:  output(m, 8);
         __builtin_unreachable();
Mended:  output(m, 8);
         return 0;

In assembler text:

Broken:  mov r0, 0
Mended:  mov r0, 0
         exit
";

pub const V3: &str = "\
V3: a register is read that isn't set.

It was never set, a helper has unset it (r1 to r5), or paths that meet leave different things in it: a place and a
number, or places of two regions.

Broken:  struct lock *found = 0;
         ..
                 found = &l[i];
         if (found)
             found->waits++;
Mended:  u64 found = 8;
         ..
                 found = i;
         if (found < 8)
             l[found].waits++;

Broken:  u64 f(const u64 *m, u64 *s, u64 length, u64 from)
Mended:  u64 f(const u64 *m, u64 *s, u64 length)
         {
             u64 from = sender();

A handler that reads its third argument, the length, wants an image of form 2 or 3.

Broken:  sblog pack f.o f.sbi --form 1 --state 64
Mended:  sblog pack f.o f.sbi --form 3 --state 64
";

pub const V4: &str = "\
V4: r10 is written.

r10 is the end of the stack, for reading. clang never writes it; assembler text may.

Broken:  add r10, -8
         stxdw [r10+0], r1
Mended:  stxdw [r10-8], r1
";

pub const V5: &str = "\
V5: a place is used as a number, or a number as a place.

Places are the message, the state, the stack, and what is so many bytes from there. Only a number may be added to a
place, and only a whole word of the stack keeps one.

Broken:  s->next = m + 1;
Mended:  s->next = 1;

Broken:  u64 f(struct context *c)
         {
             return c->data[0];
Mended:  u64 f(const u8 *data, u64 *s, u64 length)
         {
             return data[0];

Broken:  s[(u64)m % 8]++;
Mended:  s[m[0] % 8]++;
";

pub const V6: &str = "\
V6: an access may leave the message, the state or the stack.

Each load and store has to lie in its region, whatever the numbers are: in the message, of 512 bytes with the zeros
after it, in the state, as long as its image says, or in the stack, of 512 bytes. So an index is compared before it is
used, itself and without a sign. A place moves by 32,768 bytes at most. If the index is right, the state may be too short.

Broken:  if (at + 8 > length)
             return 1;
         sum += m[at];
Mended:  if (at > length)
             return 1;
         sum += m[at];

Broken:  s8 kind = m[0];
         if (kind < 16)
             s[kind]++;
Mended:  u8 kind = m[0];
         if (kind < 16)
             s[kind]++;

Broken:  int at = m[0];
         if (at < 0 || at >= 6)
             at = 0;
         s[at]++;
Mended:  u64 at = m[0] % 6;
         within(at, 5);
         s[at]++;
";

pub const V7: &str = "\
V7: the message is written.

The message is for reading. It is the first argument, and the state, which is for writing too, the second.

Broken:  u64 f(u64 *s, const u64 *m, u64 length)
Mended:  u64 f(const u64 *m, u64 *s, u64 length)

Broken:  m[0]++;
         output(m, 8);
Mended:  u64 next = m[0] + 1;
         output(&next, 8);
";

pub const V8: &str = "\
V8: there is no such helper.

Helpers are 1 to 4, in forms 2 and 3 also 5 and 6: me() is 3, sender() 4, send() 5, output() 6. No helper of the kernel
is there: what a handler does follows from its state and the message alone.

Broken:  s[0] = bpf_get_prandom_u32();
Mended:  s[0] = s[0] * 6364136223846793005ULL + 1;

Broken:  sblog pack f.o f.sbi --form 1 --state 64
Mended:  sblog pack f.o f.sbi --form 3 --state 64
";

pub const V9: &str = "\
V9: a helper's argument isn't what it takes.

send() takes the number of a process, a payload and its length, output() a payload and its length. A payload is a place
with as many bytes in its region as the length may be, or 256 if it may be more.

Broken:  u64 out[2] = { m[0], s[0] };
         output(out, 24);
Mended:  output(out, sizeof(out));

Broken:  u64 bytes = m[0];
         output(s, bytes);
Mended:  u64 bytes = m[0];
         if (bytes > 64)
             return 1;
         output(s, bytes);

Broken:  output(text + at, 20 - at);
Mended:  output(text, 20);
";

pub const V10: &str = "\
V10: the result isn't a number.

r0 is a number at `exit`. What it is means nothing.

Broken:  void f(const u64 *m, u64 *s, u64 length)
         {
             s[0] += m[0];
         }
Mended:  u64 f(const u64 *m, u64 *s, u64 length)
         {
             s[0] += m[0];
             return 0;
         }

Broken:  return (u64)s;
Mended:  return 0;
";
