// The runtime of the C programs: what each of them begins with, below its `#include` lines. Its first part.

/// The comment on top, the options, and the variables.
pub const OPTIONS: &str = r#"// What every generated test begins with. The whole file:
//
//   #include "kernel/types.h"          and kernel/stat.h, kernel/fcntl.h, user/user.h
//   #define KIT_MAPS                   if the kernel has mmap
//   this text
//   static void cow17_p0(void) { ld(21, H + 0x8, 8, 0x0); .. done(229, 0); }
//   static void cow17_test(void) { begin_all("cow-17", 229); held(5, 26); spawn(0, 0, cow17_p0); reap(229, 0, 0); end_all(); }
//   int main(int argc, char *argv[])
//   {
//     static const Life tests[] = { cow17_test }, parts[] = { 0 };
//     run_all(argc, argv, tests, 1, parts);
//   }
//
// Each process of a script is a function of calls in its order. The first argument of a call is its step: the line of the script
// with which it begins. A failure names it: after `kit: cow-17 FAIL step 229: ..`
//
//   xv6lab trace cow-17.script --line 229
//
// says what a right kernel does there. The last argument is what the machine of xv6lab answered: proved, as docs/KERNELS.md says.
// Addresses are H + offset (the heap), M[i] + offset (mapping i), Mend[i] + offset (past its end), G + offset (the guard page), T
// (the text), or a number.
//
//   ld(step, a, w, v)  st(step, a, w, v)      a load of w bytes that reads v; a store
//   stp(step, a, n, v)                        stores of v, v + 1, .. to the first 8 bytes of n pages
//   denied(step, store, a, w)                 an access that ends the process; made by a child
//   peek(step, a, w, store, v2, status, v)    a child loads v, may store v2, and exits
//   at(step)  get(a, w)  set(a, w, v)  fail(step, text)  the parts of an access that must end the process itself
//   grow(step, n, old)                        sbrk of n bytes, which returns the heap's old end: `old` if the heap begins at 0x4000
//   in(step, via, a, n, done, hex)            write() of n bytes from a. Of these `done` can be copied. If it is n, they are hex
//   out(step, via, a, n, seed, done)          read() of n bytes of a pattern to a. Via 0: a pipe; 1: a file; 2: a file each of
//                                             whose descriptors is for one way, and refuses the other
//   out_wait(step, a, status)                 wait(a) for a child that exits
//   map(step, i, file, mode, off, len, prot, flags, good)  unmap(step, i, a, len, front)  mmap, munmap of a front or a back
//   file_make(file, from, len, seed)  show(step, file, off, n, hex)  makes a file before begin_all; reads n bytes of it
//   spawn(step, c, life)  give(c)  back()     child c begins to wait; it gets the turn until it calls back
//   done(step, status)  reap(step, c, status) exit; the parent gives child c its last turn, in which it ends
//   slay(step, c)                             kills child c, which waits for its turn
//   again(step, part)                         exec of the program itself, which goes on in parts[part] with an empty heap. The
//                                             process has no mapping then: the labs do not say what exec does with one
//   held(step, n)  used(step, more, n)        n frames are in use in the model, at the beginning and now. At most `more` beside the
//                                             difference may be taken. Not asked after an exec
//   begin_all(name, last)  end_all()          in the parent of the first process; `last` is the step in which that process ends
//
// Options of the compiler:
//   -D'KIT_SBRK(n)=..'  grows the heap lazily, if sbrk(n) does not; -D'KIT_SHRINK(n)=..' shrinks it
//   -D'KIT_FREE()=..'   a call that returns the number of free pages; -DKIT_COUNT counts them by sbrk; else none are compared
//   -DKIT_OLD           programs may store to their text (xv6 before 2023)
//   -DKIT_STACK=n       the stack has n pages
#ifndef KIT_SBRK
#define KIT_SBRK(n) sbrk(n)
#endif
#ifndef KIT_SHRINK
#define KIT_SHRINK(n) sbrk(n)
#endif
#ifndef KIT_STACK
#define KIT_STACK 1
#endif
#ifndef PROT_READ
#define PROT_READ 1
#define PROT_WRITE 2
#define MAP_SHARED 1
#define MAP_PRIVATE 2
#endif
#define UNUSED __attribute__((unused))
#define NCHILD 8
#define NMAPS 24
#define FAILED 77                               // exit status of a process that printed a failure, or heard of one
#define LOST 78                                 // .. of one that cannot read or write the pipes to its parent

typedef void (*Life)(void);
typedef struct {
  int to, from, pid;                            // pipe ends and process; pid is 0 if there is none
} Child;

static int up, down;                            // the pipe ends to the parent; -1 if there are none
static Child child[NCHILD];
UNUSED static uint64 H, G, T, M[NMAPS], Mend[NMAPS];
static uint64 heap_size;
static int frames_before, held_before, last_step;
static const char *name, *self;
static uchar buf[256];
static char line[200];
static int line_end;

"#;

/// Printing, and turns.
pub const TURNS: &str = r#"// ---- Printing: a line is collected, and written at once ----

static void put(const char *s)
{
  while (*s && line_end < (int)sizeof line - 2)
    line[line_end++] = *s++;
}

static void put_number(uint64 v, int base)
{
  char digits[24];
  int i = sizeof digits;
  digits[--i] = 0;
  do
    digits[--i] = "0123456789abcdef"[v % base];
  while (v /= base);
  put(digits + i);
}

static void hex(uint64 v)
{
  put("0x");
  put_number(v, 16);
}

static void dec(int v)
{
  if (v < 0)
    put("-");
  put_number(v < 0 ? -(long)v : v, 10);
}

static void begin_line(void)
{
  line_end = 0;
  put("kit: ");
}

static void print_line(void)
{
  line[line_end++] = '\n';
  write(1, line, line_end);
}

static void fail_begin(int step)
{
  begin_line();
  put(name);
  put(" FAIL step ");
  dec(step);
  put(": ");
}

static void fail_end(void)
{
  print_line();
  exit(FAILED);
}

static void fail(int step, const char *what)
{
  fail_begin(step);
  put(what);
  fail_end();
}

static void differ(int step, const char *what, uint64 a, uint64 want, uint64 got)
{
  fail_begin(step);
  put(what);
  put(" at ");
  hex(a);
  if (a >= H && a < H + heap_size) {
    put(" (heap + ");
    hex(a - H);
    put(")");
  }
  put(": expected ");
  hex(want);
  put(", got ");
  hex(got);
  fail_end();
}

// ---- Turns. Parent and child are joined by two pipes whose other ends nobody has: so the end of a process is noticed ----

static void tell(int word)
{
  if (up >= 0 && write(up, &word, sizeof word) != sizeof word)
    exit(LOST);
}

// Each step is told to the parent before it is made: if the kernel ends this process, the parent knows where.
static void at(int step)
{
  tell(step);
}

// Reads a word; returns 0 if the other process has ended.
static int hear(int fd, int *word)
{
  int n = 0;
  while (n < (int)sizeof *word) {
    int r = read(fd, (char *)word + n, sizeof *word - n);
    if (r <= 0)
      return 0;
    n += r;
  }
  return 1;
}

static void await(void)
{
  int word;
  if (!hear(down, &word))
    exit(LOST);
}

UNUSED static void back(void)
{
  tell(-1);
  await();
}

static void check_status(int step, int pid, int want)
{
  int status = 0, got = wait(&status);
  if (got == pid && status == FAILED && want != FAILED)
    exit(FAILED);
  if (got != pid)
    fail(step, "wait did not return the child that ended");
  if (status == want)
    return;
  fail_begin(step);
  if (status == LOST)
    put("the child lost its turn; ");
  put("the child's status is expected to be ");
  dec(want);
  put(", and is ");
  dec(status);
  fail_end();
}

static void close_child(int c)
{
  close(child[c].to);
  close(child[c].from);
}

// A child that should have come back has ended.
static void ended(int c, int step)
{
  int status = 0;
  close_child(c);
  wait(&status);
  if (status == FAILED)
    exit(FAILED);
  fail_begin(step);
  if (status == LOST) {
    put("the process lost its turn after this step");
  } else {
    put("the process was ended with status ");
    dec(status);
    put(" in this step");
  }
  fail_end();
}

// Gives the turn to a child. Returns the last step that it told; *ends says whether it has ended.
static int turn(int c, int step, int *ends)
{
  int last = step, word = 0;
  *ends = 0;
  if (write(child[c].to, &word, sizeof word) != sizeof word)
    fail(step, "the child has ended before its turn");
  while (hear(child[c].from, &word)) {
    if (word < 0)
      return last;
    last = word;
  }
  *ends = 1;
  return last;
}

UNUSED static void give(int c)
{
  int ends, last = turn(c, 0, &ends);
  if (ends)
    ended(c, last);
}

static void wait_for(int step, int c, int status)
{
  close_child(c);
  check_status(step, child[c].pid, status);
  child[c].pid = 0;
}

UNUSED static void reap(int step, int c, int status)
{
  int ends, last = turn(c, step, &ends);
  if (!ends)
    fail(step, "the child has not ended");
  wait_for(last, c, status);
}

UNUSED static void slay(int step, int c)
{
  int word;
  at(step);
  if (kill(child[c].pid) != 0)
    fail(step, "kill failed");
  while (hear(child[c].from, &word))
    ;
  wait_for(step, c, -1);
}

static void become_child(int to_parent, int from_parent, Life life)
{
  if (up >= 0) {
    close(up);
    close(down);
  }
  for (int i = 0; i < NCHILD; i++)
    if (child[i].pid) {
      close_child(i);
      child[i].pid = 0;
    }
  up = to_parent;
  down = from_parent;
  await();
  life();
  exit(FAILED);
}

static void spawn(int step, int c, Life life)
{
  int d[2], u[2], pid;
  at(step);
  if (pipe(d) < 0 || pipe(u) < 0)
    fail(step, "pipe failed");
  pid = fork();
  if (pid < 0)
    fail(step, "fork failed");
  if (pid == 0) {
    close(d[1]);
    close(u[0]);
    become_child(u[1], d[0], life);
  }
  close(d[0]);
  close(u[1]);
  child[c] = (Child){ d[1], u[0], pid };
}

UNUSED static void done(int step, int status)
{
  at(step);
  exit(status);
}

"#;
