// The runtime of the C programs: what each of them begins with, below its `#include` lines. Its second part.

/// Loads, stores and copies.
pub const ACCESSES: &str = r#"// ---- Loads and stores ----

static uint64 get(uint64 a, int w)
{
  if (w == 1)
    return *(volatile uint8 *)a;
  if (w == 2)
    return *(volatile uint16 *)a;
  if (w == 4)
    return *(volatile uint32 *)a;
  return *(volatile uint64 *)a;
}

static void set(uint64 a, int w, uint64 v)
{
  if (w == 1)
    *(volatile uint8 *)a = v;
  else if (w == 2)
    *(volatile uint16 *)a = v;
  else if (w == 4)
    *(volatile uint32 *)a = v;
  else
    *(volatile uint64 *)a = v;
}

static void compare(int step, const char *what, uint64 a, int w, uint64 want)
{
  uint64 got = get(a, w);
  if (got != want)
    differ(step, what, a, want, got);
}

UNUSED static void ld(int step, uint64 a, int w, uint64 want)
{
  at(step);
  compare(step, "load", a, w, want);
}

UNUSED static void st(int step, uint64 a, int w, uint64 v)
{
  at(step);
  set(a, w, v);
}

UNUSED static void stp(int step, uint64 a, int n, uint64 v)
{
  at(step);
  for (int i = 0; i < n; i++)
    set(a + i * 4096UL, 8, v + i);
}

static int forked(int step)
{
  int pid;
  at(step);
  pid = fork();
  if (pid < 0)
    fail(step, "fork failed");
  return pid;
}

UNUSED static void denied(int step, int store, uint64 a, int w)
{
  int pid = forked(step);
  if (pid == 0) {
    if (store)
      set(a, w, 0x55);
    else
      get(a, w);
    fail_begin(step);
    put(store ? "a store of " : "a load of ");
    dec(w);
    put(" bytes at ");
    hex(a);
    put(" must end the process, and did not");
    fail_end();
  }
  check_status(step, pid, -1);
}

UNUSED static void peek(int step, uint64 a, int w, int store, uint64 v, int status, uint64 want)
{
  int pid = forked(step);
  if (pid == 0) {
    compare(step, "load in a child", a, w, want);
    if (store)
      set(a, w, v);
    exit(status);
  }
  check_status(step, pid, status);
}

// The model's heap begins at 0x4000.
UNUSED static void grow(int step, int n, uint64 end)
{
  uint64 r, old = end - 0x4000;
  at(step);
  r = n > 0 ? (uint64)KIT_SBRK(n) : (uint64)KIT_SHRINK(n);
  if (r != H + old)
    differ(step, "sbrk", H + old, H + old, r);
  heap_size = old + n;
}

// ---- Copies by the kernel. Their bytes are pattern(seed) ----

UNUSED static void pattern(int seed, int n)
{
  for (int i = 0; i < n; i++)
    buf[i] = seed * 31 + i * 7 + 1;
}

static int nibble(char c)
{
  return c <= '9' ? c - '0' : c - 'a' + 10;
}

UNUSED static void same_bytes(int step, const char *what, uint64 a, const char *digits)
{
  for (int i = 0; digits[2 * i]; i++) {
    int want = nibble(digits[2 * i]) << 4 | nibble(digits[2 * i + 1]);
    if (buf[i] != want)
      differ(step, what, a + i, want, buf[i]);
  }
}

static int opened(int step, const char *file, int mode)
{
  int fd = open(file, mode);
  if (fd < 0)
    fail(step, "open failed");
  return fd;
}

// What fd[1] takes can be read from fd[0] once turn_round is called.
static void open_ends(int step, int via, int fd[2])
{
  if (via == 0) {
    if (pipe(fd) < 0)
      fail(step, "pipe failed");
    return;
  }
  unlink("kitdata");
  fd[1] = opened(step, "kitdata", O_CREATE | (via == 1 ? O_RDWR : O_WRONLY));
}

static void turn_round(int step, int via, int fd[2])
{
  if (via == 0)
    return;
  close(fd[1]);
  fd[0] = opened(step, "kitdata", O_RDONLY);
}

static void close_ends(int via, int fd[2])
{
  close(fd[0]);
  if (via == 0)
    close(fd[1]);
  else
    unlink("kitdata");
}

// A copy of n bytes, of which `done` can be made: all are, or the call fails, or it returns how many there are.
static void check_copy(int step, const char *call, uint64 a, int n, int done, int r)
{
  if (done == n ? r != n : r > 0 && r != done)
    differ(step, call, a, done == n ? n : -1, r);
}

// read() of n bytes to a. If not all can be copied, how many arrive is the kernel's choice: then they are stored here.
UNUSED static void out(int step, int via, uint64 a, int n, int seed, int done)
{
  int fd[2], r;
  at(step);
  open_ends(step, via, fd);
  pattern(seed, n);
  if (write(fd[1], buf, n) != n)
    fail(step, "write of good bytes failed");
  if (via == 2 && (r = read(fd[1], (void *)a, n)) != -1)
    differ(step, "read() of a file that is open for writing", a, -1, r);
  turn_round(step, via, fd);
  r = read(fd[0], (void *)a, n);
  close_ends(via, fd);
  check_copy(step, via ? "read() of a file" : "read() of a pipe", a, n, done, r);
  for (int i = 0; i < done && done < n; i++)
    set(a + i, 1, buf[i]);
}

// write() of n bytes from a, which are read back.
UNUSED static void in(int step, int via, uint64 a, int n, int done, const char *digits)
{
  int fd[2], r;
  at(step);
  open_ends(step, via, fd);
  r = write(fd[1], (void *)a, n);
  check_copy(step, via ? "write() to a file" : "write() to a pipe", a, n, done, r);
  turn_round(step, via, fd);
  if (via == 2 && (r = write(fd[0], (void *)a, n)) != -1)
    differ(step, "write() to a file that is open for reading", a, -1, r);
  if (done == n) {
    memset(buf, 0, n);
    if (read(fd[0], buf, n) != n)
      fail(step, "read of the bytes failed");
    same_bytes(step, "byte that write() took", a, digits);
  }
  close_ends(via, fd);
}

// wait() stores a status at a.
UNUSED static void out_wait(int step, uint64 a, int status)
{
  int pid = forked(step), r;
  if (pid == 0)
    exit(status);
  r = wait((int *)a);
  if (r != pid)
    differ(step, "wait() with a status", a, pid, r);
}

"#;

/// Mappings, files, pages in use, exec, and the program.
pub const FILES: &str = r#"// ---- Mappings and files ----

UNUSED static void file_make(const char *file, int from, int len, int seed)
{
  int fd, k;
  if (from == 0)
    unlink(file);
  fd = opened(0, file, O_CREATE | O_RDWR);
  for (int n = 0; n < from; n += k) {
    k = from - n < 256 ? from - n : 256;
    if (read(fd, buf, k) != k)
      fail(0, "a file is too short");
  }
  for (int n = 0; n < len; n += k) {
    k = len - n < 256 ? len - n : 256;
    for (int i = n; i < n + k; i++)
      buf[i - n] = i * 7 + i / 256 * 13 + seed;
    if (write(fd, buf, k) != k)
      fail(0, "a file cannot be written");
  }
  close(fd);
}

#ifdef KIT_MAPS
UNUSED static void map(int step, int i, const char *file, int mode, int off, int len, int prot, int flags, int good)
{
  uint64 a, n = (len + 4095UL) & ~4095UL;
  int fd;
  at(step);
  fd = opened(step, file, mode);
  a = (uint64)mmap(0, len, prot, flags, fd, off);
  close(fd);
  if (!good) {
    if (a != (uint64)-1)
      differ(step, "mmap that must fail", a, -1, a);
    return;
  }
  if (a == (uint64)-1 || a % 4096)
    differ(step, "mmap", 0, 0, a);
  if (a < H + heap_size)
    differ(step, "mmap in the heap", a, 0, a);
  for (int j = 0; j < NMAPS; j++)
    if (M[j] < a + n && a < Mend[j])
      differ(step, "mmap in another mapping", a, 0, a);
  M[i] = a;
  Mend[i] = a + n;
}

// A front or a back of mapping i, or all of it.
UNUSED static void unmap(int step, int i, uint64 a, int len, int front)
{
  uint64 n = (len + 4095UL) & ~4095UL;
  at(step);
  if (munmap((void *)a, len) != 0)
    differ(step, "munmap", a, 0, -1);
  if (front)
    M[i] = a + n;
  else
    Mend[i] = a;
  if (M[i] == Mend[i])
    Mend[i] = 0;
}
#endif

UNUSED static void show(int step, const char *file, int off, int n, const char *digits)
{
  int fd, k;
  at(step);
  fd = opened(step, file, O_RDONLY);
  for (int skip = off; skip > 0; skip -= k)
    if ((k = read(fd, buf, skip < 256 ? skip : 256)) <= 0)
      fail(step, "the file is too short");
  if (read(fd, buf, n) != n)
    fail(step, "the file is too short");
  close(fd);
  same_bytes(step, "byte of the file", off, digits);
}

// ---- Pages in use ----

#if !defined(KIT_FREE) && defined(KIT_COUNT)
// A child takes pages until sbrk fails, or the kernel ends it.
static void take_all(int fd)
{
  for (;;) {
    char *a = KIT_SBRK(4096);
    if (a == (char *)-1)
      exit(0);
    *(volatile char *)a = 1;
    write(fd, "x", 1);
  }
}

static int count_frames(void)
{
  int fd[2], n = 0, k, pid;
  if (pipe(fd) < 0 || (pid = fork()) < 0)
    return -1;
  if (pid == 0) {
    close(fd[0]);
    take_all(fd[1]);
  }
  close(fd[1]);
  while ((k = read(fd[0], buf, sizeof buf)) > 0)
    n += k;
  close(fd[0]);
  wait(0);
  return n;
}
#define KIT_FREE() count_frames()
#endif

UNUSED static void held(int step, int n)
{
  at(step);
  held_before = n;
}

// Not asked after an exec: the process then has a text of its own.
UNUSED static void used(int step, int more, int held)
{
  at(step);
#ifdef KIT_FREE
  int most = held - held_before + more, n = frames_before - KIT_FREE();
  if (n > most)
    differ(step, "pages in use (at most)", 0, most, n);
#endif
}

// ---- A test ----

static void find_places(void)
{
  int here;
  H = ((uint64)sbrk(0) + 4095) & ~4095UL;
  if (H != (uint64)sbrk(0))
    KIT_SBRK(H - (uint64)sbrk(0));
  T = (uint64)&find_places & ~7UL;
  G = ((uint64)&here & ~4095UL) - 4096 * KIT_STACK;
}

// Stores to all variables: a kernel with copy-on-write takes their pages now, and not after it was asked how many are free.
static void clear_all(const char *test, int last)
{
  name = test;
  last_step = last;
  up = down = -1;
  memset(child, 0, sizeof child);
  memset(M, 0, sizeof M);
  memset(Mend, 0, sizeof Mend);
  memset(buf, 0, sizeof buf);
  memset(line, 0, sizeof line);
  heap_size = frames_before = held_before = line_end = 0;
}

static void begin_all(const char *test, int last)
{
  clear_all(test, last);
  find_places();
#ifdef KIT_FREE
  frames_before = KIT_FREE();
#endif
}

#ifdef KIT_FREE
static void fail_pages(int before, int now)
{
  int lost = before - now;
  fail_begin(last_step);
  dec(lost > 0 ? lost : -lost);
  put(lost > 0 ? " pages lost: " : " pages free that were not: ");
  dec(before);
  put(" free at the beginning, ");
  dec(now);
  put(" at the end");
  fail_end();
}
#endif

static void end_all(void)
{
#ifdef KIT_FREE
  int n = KIT_FREE();
  if (n != frames_before)
    fail_pages(frames_before, n);
#endif
  begin_line();
  put(name);
  put(" PASS");
  print_line();
}

// ---- exec. The pipe ends stay open: the new program learns of them by its arguments ----

static void put_field(int v)
{
  dec(v);
  put(" ");
}

UNUSED static void again(int step, int part)
{
  char *argv[] = { (char *)self, (char *)name, line, 0 };
  at(step);
  line_end = 0;
  put_field(part);
  put_field(last_step);
  put_field(up);
  put_field(down);
  for (int i = 0; i < NCHILD; i++)
    if (child[i].pid) {
      put_field(i);
      put_field(child[i].to);
      put_field(child[i].from);
      put_field(child[i].pid);
    }
  line[line_end] = 0;
  exec((char *)self, argv);
  fail(step, "exec failed");
}

static int field(const char **s)
{
  int v = atoi(*s);
  while (**s && **s != ' ')
    ++*s;
  while (**s == ' ')
    ++*s;
  return v;
}

static void go_on(const char *test, const char *fields, const Life parts[])
{
  int part = field(&fields), last = field(&fields);
  clear_all(test, last);
  find_places();
  up = field(&fields);
  down = field(&fields);
  while (*fields) {
    Child *c = &child[field(&fields)];
    c->to = field(&fields);
    c->from = field(&fields);
    c->pid = field(&fields);
  }
  parts[part]();
  exit(FAILED);
}

// ---- The program ----

// What the tests themselves need of fork, pipe and wait. If it fails, they could tell no more.
static void smoke(void)
{
  static volatile int word = 1;
  int fd[2], pid, status = 0;
  name = "smoke-0";
  if (pipe(fd) < 0 || (pid = fork()) < 0)
    fail(0, "pipe or fork failed");
  if (pid == 0) {
    read(fd[0], buf, 1);
    status = word;
    word = 5;
    exit(status);
  }
  word = 2;
  write(fd[1], buf, 1);
  if (wait(&status) != pid)
    fail(0, "wait did not return the child that ended");
  close(fd[0]);
  close(fd[1]);
  if (status == 2)
    fail(0, "after fork, the child reads what the parent stored");
  if (status != 1)
    fail(0, "after fork, the child does not read what was there before, or is ended");
  if (word != 2)
    fail(0, "after fork, the parent does not read what it stored itself");
}

// Each test in a process of its own, so that it begins with an empty heap.
static int passed(Life test)
{
  int status = -1, pid = fork();
  if (pid == 0) {
    test();
    exit(0);
  }
  wait(&status);
  return status == 0;
}

__attribute__((noreturn)) static void run_all(int argc, char *argv[], const Life tests[], int n, const Life parts[])
{
  int good = 0;
  self = argv[0];
  if (argc > 2)
    go_on(argv[1], argv[2], parts);
  smoke();
  for (int i = 0; i < n; i++)
    good += passed(tests[i]);
  begin_line();
  dec(good);
  put(" of ");
  dec(n);
  put(" pass");
  print_line();
  exit(good == n ? 0 : 1);
}
"#;
