// A page of HTML that asks about lines of a script: `put_quiz_start`, for each question `put_question`, `put_quiz_end`.

use crate::escape::put_escaped;
use text_builder::Text;

/// What stands before the title.
const BEFORE_TITLE: &str = "<!doctype html>
<html lang=\"en\">
<head>
<meta charset=\"utf-8\">
<meta name=\"viewport\" content=\"width=device-width, initial-scale=1\">
<title>";

/// What stands between the title and the questions.
const AFTER_TITLE: &str = "</title>
<style>
:root { color-scheme: light }
body { margin: 0; font: 18px/1.4 system-ui, sans-serif; color: #111; background: #fff }
header { display: flex; gap: 1.5em; align-items: baseline; padding: .4em 1em; background: #eee; border-bottom: 1px solid #999 }
main { display: grid; grid-template-columns: minmax(20em, 5fr) minmax(0, 7fr); gap: 1em; padding: .6em 1em }
pre { margin: 0; font: 16px/1.4 ui-monospace, Menlo, Consolas, monospace; white-space: pre-wrap; overflow-wrap: anywhere }
#lines { max-height: 38vh; overflow: auto; color: #333 }
#line { margin: .4em 0; padding: .3em .5em; font-size: 20px; font-weight: bold; background: #f3e3ea; border-left: .4em solid #c2185b }
form { display: flex; gap: .5em }
input { flex: 1; min-width: 4em; font: 20px ui-monospace, Menlo, Consolas, monospace; padding: .2em .4em }
button { font: inherit }
#verdict { margin: .4em 0; min-height: 1.4em; font-weight: bold }
#trace { max-height: 40vh; overflow: auto; font-size: 14px }
#picture { overflow: auto; max-height: 86vh; border: 1px solid #ccc }
#picture svg { display: block; width: 100%; height: auto }
#caption { font-weight: bold; margin: 0 0 .3em }
@media (max-width: 50em) { main { grid-template-columns: minmax(0, 1fr) } }
</style>
</head>
<body>
<header><strong id=\"title\"></strong><span id=\"place\"></span><span id=\"score\"></span><span>Enter answers, then PageDown or space goes on</span></header>
<noscript><p>This page asks by JavaScript, which is off.</p></noscript>
<main>
<div>
<pre id=\"lines\" tabindex=\"0\"></pre>
<pre id=\"line\"></pre>
<form id=\"form\"><input id=\"guess\" autocomplete=\"off\" autocapitalize=\"off\" spellcheck=\"false\" aria-label=\"What does this line answer?\" placeholder=\"what does this line answer?\"><button id=\"button\">Answer</button></form>
<p id=\"verdict\" aria-live=\"polite\"></p>
<pre id=\"trace\" tabindex=\"0\"></pre>
</div>
<div><p id=\"caption\"></p><div id=\"picture\" tabindex=\"0\"></div></div>
</main>
";

/// What stands after the last question.
const END: &str = "<script>
const at = name => document.getElementById(name);
const questions = [...document.querySelectorAll('template')].map(it => ({
  number: it.dataset.number, line: it.dataset.line, answer: it.dataset.answer, form: it.dataset.form, wanted: it.dataset.wanted,
  lines: it.content.querySelector('.lines').textContent, trace: it.content.querySelector('.trace').textContent,
  before: it.content.querySelector('.before svg'), after: it.content.querySelector('.after svg')
}));
// Whether a question is about the reference MMU, of whose outcomes all that are permitted are asked.
const isOfMmu = question => question.wanted !== question.form;
const missed = [];
let now = 0, right = 0, answered = false, again = false, lines = '';
const by = ['=>', 'walk', 'held', 'bare', 'misaligned', 'not', 'canonical'];
const bytes = { file: 2, copied: 2, short: 5 };
function plainWord(word, isBytes) {
  if (isBytes) return word.replace(/^0x/, '');
  if (!/^(0x[0-9a-f]+|[0-9]+)$/.test(word)) return word;
  const value = BigInt(word);
  return value < 1n << 64n ? value.toString() : word;
}
function plainPart(part) {
  const words = part.split(/\\s+/).filter(it => it);
  while (words.length && by.includes(words[0])) words.shift();
  const kept = words.filter((word, number) => word !== 'level' && words[number - 1] !== 'level');
  const place = Object.hasOwn(bytes, kept[0]) ? bytes[kept[0]] : -1;
  return kept.map((word, number) => plainWord(word, number === place)).join(' ');
}
function plainParts(text) {
  return new Set(text.toLowerCase().replace(/\\([^)]*\\)?/g, '').replace(/\\)/g, '').replace(/,/g, ' ').split(';').map(plainPart).filter(it => it));
}
function isRight(guess, answer) {
  const one = plainParts(guess), other = plainParts(answer);
  return one.size === other.size && [...one].every(it => other.has(it));
}
function fitsWord(form, word) {
  if (form === 'N' || form === '0x..') return /^-?(0x[0-9a-f]+|[0-9]+)$/.test(word);
  if (form === 'BYTES') return /^(-|[0-9a-f]+)$/.test(word);
  if (form === 'NAME' || form === 'RULE') return !/^(0x[0-9a-f]+|[0-9]+)$/.test(word);
  return form === word;
}
function hasForm(guess, form) {
  const parts = [...plainParts(guess)].map(it => it.split(' ')), forms = form.split(' or ').map(it => it.split(' '));
  return parts.length > 0 && parts.every(part => forms.some(words => words.length === part.length && words.every((word, place) => fitsWord(word, part[place]))));
}
// Between outcomes a comma is as good as a semicolon. A number alone has the word before it that the form has.
function parted(guess, question) {
  if (isOfMmu(question)) return guess.replace(/,/g, ';');
  const words = question.form.split(' ');
  return /^(N|0x[.][.])$/.test(words[1]) && /^(0x[0-9a-f]+|[0-9]+)$/i.test(guess.trim()) ? words[0] + ' ' + guess : guess;
}
// Whether a line asks for the counts that a picture shows.
const asksCounts = question => question.line.trim().split(/[^a-z]/)[0] === 'audit';
function texts(picture) {
  return new Map([...picture.querySelectorAll('.cell')].filter(it => it.dataset.key).map(it => [it.dataset.key, it.getAttribute('class') + it.textContent]));
}
function draw(question, after) {
  const kept = !after && question.before && asksCounts(question);
  const picture = kept ? null : (after ? question.after : question.before)?.cloneNode(true);
  if (after && picture && question.before) {
    const old = texts(question.before);
    for (const it of picture.querySelectorAll('.cell'))
      if (it.dataset.key && old.get(it.dataset.key) !== it.getAttribute('class') + it.textContent) it.classList.add('changed');
  }
  at('caption').textContent = kept ? 'The picture comes with the answer: it shows the counts that are asked.'
    : picture ? after ? 'After this line (what changed is outlined)' : 'Before this line' : '';
  at('picture').hidden = !picture;
  at('picture').replaceChildren(...picture ? [picture] : []);
}
function show() {
  const question = questions[now];
  answered = again = false;
  at('guess').placeholder = question.form;
  lines += question.lines;
  at('lines').textContent = lines;
  at('lines').scrollTop = at('lines').scrollHeight;
  at('line').textContent = question.number + '  ' + question.line;
  at('place').textContent = 'question ' + (now + 1) + ' of ' + questions.length;
  at('score').textContent = right + ' right';
  at('verdict').textContent = isOfMmu(question) ? 'Give ' + question.wanted : '';
  at('trace').textContent = '';
  at('guess').value = '';
  at('guess').disabled = false;
  at('button').textContent = 'Answer';
  draw(question, false);
  at('guess').focus();
}
function answer() {
  const question = questions[now], guess = parted(at('guess').value, question);
  const good = isRight(guess, question.answer), formed = good || hasForm(guess, question.form);
  if (!formed && !again) {
    again = true;
    at('verdict').textContent = 'no answer: once more, in the form ' + question.wanted;
    return;
  }
  answered = true;
  if (good) right++;
  else missed.push('line ' + question.number + ': ' + question.line + '\\n    ' + question.answer + '\\n');
  at('verdict').textContent = (good ? 'right: ' : formed ? 'wrong: it is ' : 'not understood: it is ') + question.answer;
  at('trace').textContent = question.trace;
  at('score').textContent = right + ' right of ' + (now + 1);
  at('guess').disabled = true;
  at('button').textContent = now + 1 < questions.length ? 'Go on' : 'The end';
  lines += question.line + '  =>  ' + question.answer + '\\n';
  draw(question, true);
  at('guess').blur();
}
function goOn() {
  if (now + 1 < questions.length) { now++; show(); }
  else {
    at('verdict').textContent = right + ' right of ' + questions.length;
    at('trace').textContent = missed.length ? 'missed:\\n' + missed.join('') : '';
  }
}
at('title').textContent = document.title;
at('form').addEventListener('submit', event => {
  event.preventDefault();
  if (answered) goOn(); else answer();
});
document.addEventListener('keydown', event => {
  if (!answered || event.ctrlKey || event.altKey || event.metaKey) return;
  if (event.key === 'PageDown' || event.key === ' ') { event.preventDefault(); goOn(); }
});
if (questions.length) show();
</script>
</body>
</html>
";

/// A question about a line.
#[derive(Clone, Copy)]
pub struct QuizQuestion<'a> {
    /// The number of the line, from 1.
    pub number: usize,
    /// The lines before it, since the question before, with their answers.
    pub lines: &'a str,
    pub line: &'a str,
    pub answer: &'a str,
    /// The form of the answers to such a line.
    pub form: &'a str,
    /// What a guess is to say: the form, or of a reference MMU that all outcomes are asked.
    pub wanted: &'a str,
    /// What happens on the line.
    pub trace: &'a str,
    /// The machine before the line and after it, as SVG; empty if there is none.
    pub before: &'a str,
    pub after: &'a str,
}

/// Puts the beginning of a page with a title.
pub fn put_quiz_start(out: &mut Text, title: &str) {
    out.push_str(BEFORE_TITLE);
    put_escaped(out, title);
    out.push_str(AFTER_TITLE);
}

/// Puts a part of a question, with a class.
fn put_text(out: &mut Text, class: &str, text: &str) {
    write!(out, "<pre class=\"{class}\">\n");
    put_escaped(out, text);
    out.push_str("</pre>\n");
}

/// Puts a picture of a question, with a class.
fn put_drawing(out: &mut Text, class: &str, picture: &str) {
    write!(out, "<div class=\"{class}\">{picture}</div>\n");
}

/// Puts a question.
pub fn put_question(out: &mut Text, question: &QuizQuestion<'_>) {
    let number = question.number;
    write!(out, "<template data-number=\"{number}\" data-line=\"");
    put_escaped(out, question.line);
    out.push_str("\" data-answer=\"");
    put_escaped(out, question.answer);
    out.push_str("\" data-form=\"");
    put_escaped(out, question.form);
    out.push_str("\" data-wanted=\"");
    put_escaped(out, question.wanted);
    out.push_str("\">\n");
    put_text(out, "lines", question.lines);
    put_text(out, "trace", question.trace);
    put_drawing(out, "before", question.before);
    put_drawing(out, "after", question.after);
    out.push_str("</template>\n");
}

/// Puts the end of a page.
pub fn put_quiz_end(out: &mut Text) {
    out.push_str(END);
}
